// Takes a recording through every stage of a recipe and back, and prints what each stage did.
//
//     walkthrough SET RECIPE     the files of a recording and of a recipe
#![tactic(auto)]

use anyhow::{Context, anyhow};
use rack::rack::Rack;
use rack::stages::Stages;
use recipe::table::Recipe;
use sets::refusal::Refusal;
use sets::shape::Shape;
use sets::span::Span;
use sets::span_list::SpanList;
use stages::table::Table;
use std::alloc::Global;
use std::rt::{Env, Files};
use std::{env, fs};
use transform::bank::Bank;

// How many samples of a channel are shown.
const SHOWN: usize = 8;

// What the stages made of the spans: those before each stage, and those after the last.
#[derive(Drop)]
struct Widths {
    before: Vec<SpanList>,
    after: SpanList,
}

// A set as it was recorded, with one span for all its channels.
#[derive(Drop)]
struct Recording {
    shape: Shape,
    spans: SpanList,
    samples: Vec<i32>,
}

fn add_numbers(all: &mut Vec<i32>, fields: &str) -> anyhow::Result<()> {
    for field in fields.split(',') {
        all.push(field.parse::<i32>()?)?;
    }
    Ok(())
}

// Number k of the first line, counted from 0: one by one, so that a wrong size in front is told before a field that is missing.
fn number(head: &[i32], k: usize) -> anyhow::Result<i32> {
    head.get(k).copied().context(
        "the first line of a set is SET,channels,samples,origin,least,greatest",
    )
}

fn size(head: &[i32], k: usize) -> anyhow::Result<usize> {
    Ok(usize::try_from(number(head, k)?)?)
}

// The same span for each channel; where there is no channel, no span is made.
fn one_span_each(least: i32, greatest: i32, channels: usize) -> Result<SpanList, Refusal> {
    if channels == 0 {
        return Ok(SpanList::new());
    }
    SpanList::repeat(Span::new(least, greatest)?, channels)
}

// What a refusal says of a recording.
fn told(refusal: Refusal) -> anyhow::Error {
    let cause = match refusal {
        Refusal::BadShape => "a number of the shape is outside its limits",
        Refusal::SpanCount => "not one span for each channel",
        Refusal::AreaLength => "the samples are not as many as the shape says",
        Refusal::DoesNotFit => "a stage does not fit the set",
        Refusal::TooWide => "a stage makes the spans too wide",
        Refusal::OutsideSpan => "a sample is outside its span",
        Refusal::Foreign => "no recording within the spans gives these samples",
        _ => return anyhow!("refused"),
    };
    anyhow!("refused {refusal}: {cause}")
}

// Reads the text of a set: SET,channels,samples,origin,least,greatest and then a line of samples for each channel.
fn read_set(heap: Global, text: &str) -> anyhow::Result<Recording> {
    let mut head = Vec::new(heap);
    let mut samples = Vec::new(heap);
    let mut lines = text.lines();
    if let Some(fields) = lines.next().and_then(|line| line.strip_prefix("SET,")) {
        add_numbers(&mut head, fields)?;
    }
    for line in lines {
        add_numbers(&mut samples, line)?;
    }
    let head = head.as_slice();
    let shape = Shape {
        channels: size(head, 0)?,
        samples: size(head, 1)?,
        origin: size(head, 2)?,
    };
    let spans = one_span_each(number(head, 3)?, number(head, 4)?, shape.channels).map_err(told)?;
    Ok(Recording {
        shape,
        spans,
        samples,
    })
}

// A rack, and the shape of the set that is taken through its stages.
#[derive(Drop)]
struct Course<R> {
    rack: R,
    shape: Shape,
}

impl<R: Rack> Course<R> {
    // The spans of all channels, and the first samples of each.
    fn show_channels(&self, rt: &impl Print, spans: &SpanList, area: &[i32]) -> anyhow::Result<()> {
        for channel in 0..self.shape.channels {
            if let Some(Span { least, greatest }) = spans.get(channel) {
                print!(rt; "  channel {channel}, {least} to {greatest}:")?;
            }
            for x in area
                .iter()
                .skip(channel.saturating_mul(self.shape.samples))
                .take(SHOWN)
            {
                print!(rt; " {x}")?;
            }
            println!(rt; " ..")?;
        }
        Ok(())
    }

    fn show_list(&self, rt: &impl Print, stage: usize) -> anyhow::Result<()> {
        let mut list = [0; 64];
        let count = self.rack.list(&self.shape, stage, &mut list).map_err(told)?;
        print!(rt; "stage {stage} lists channels")?;
        for channel in list.iter().take(count) {
            print!(rt; " {channel}")?;
        }
        println!(rt; ", and gives")?;
        Ok(())
    }

    // Applies every stage.
    fn apply_all(
        &self,
        rt: &(impl AllocGlobal + Print),
        first: &SpanList,
        area: &mut [i32],
    ) -> anyhow::Result<Widths> {
        let mut spans = *first;
        let mut before = Vec::new(rt.alloc());
        for stage in 0..self.rack.count() {
            self.show_list(rt, stage)?;
            self.rack
                .apply(&self.shape, stage, &spans, area)
                .map_err(told)?;
            before.push(spans)?;
            self.rack
                .spans(&self.shape, stage, &mut spans)
                .map_err(told)?;
            self.show_channels(rt, &spans, area)?;
        }
        Ok(Widths {
            before,
            after: spans,
        })
    }

    // Undoes every stage, the last first, with the spans before it.
    // Whether all came back: the refusal is printed where it is met.
    fn undo_all(
        &self,
        rt: &impl Print,
        before: &[SpanList],
        area: &mut [i32],
    ) -> anyhow::Result<bool> {
        for (stage, spans) in before.iter().enumerate().rev() {
            if let Err(refusal) = self.rack.undo(&self.shape, stage, spans, area) {
                println!(rt;
                    "stage {stage} is not undone: refused {refusal}, and the area is all zeros"
                )?;
                return Ok(false);
            }
            println!(rt; "stage {stage} is undone")?;
        }
        Ok(true)
    }
}

// Damages an image at the first sample of its last channel, which becomes the greatest of its span.
fn damage(shape: &Shape, after: &SpanList, image: &mut [i32]) {
    let channel = shape.channels.saturating_sub(1);
    let place = channel.saturating_mul(shape.samples);
    if let (Some(sample), Some(span)) = (image.get_mut(place), after.get(channel)) {
        *sample = span.greatest;
    }
}

fn walk(
    rt: &(impl AllocGlobal + Print),
    recording: &Recording,
    recipe: Recipe,
) -> anyhow::Result<()> {
    let Shape {
        channels,
        samples,
        origin,
    } = recording.shape;
    println!(rt; "recorded: {channels} channels of {samples} samples from place {origin} on")?;
    let course = Course {
        rack: Bank { table: recipe },
        shape: recording.shape,
    };
    course.show_channels(rt, &recording.spans, recording.samples.as_slice())?;
    let mut area = recording.samples.clone()?;
    let widths = course.apply_all(rt, &recording.spans, area.as_mut_slice())?;
    let mut image = area.clone()?;
    let whole = course.undo_all(rt, widths.before.as_slice(), area.as_mut_slice())?;
    if whole && area == recording.samples {
        let count = area.len();
        println!(rt; "all {count} samples came back")?;
    } else {
        println!(rt; "the recording did NOT come back")?;
    }
    println!(rt;
        "now the first sample of the last channel is damaged: it becomes the greatest of its span"
    )?;
    damage(&course.shape, &widths.after, image.as_mut_slice());
    if course.undo_all(rt, widths.before.as_slice(), image.as_mut_slice())? {
        println!(rt; "the damaged image stands for another recording")?;
    }
    Ok(())
}

fn run(rt: &(impl AllocGlobal + Env + Files + Print)) -> anyhow::Result<()> {
    let heap = rt.alloc();
    let mut paths = env::args(rt)?.skip(1);
    let (Some(set_path), Some(recipe_path)) = (paths.next(), paths.next()) else {
        return Err(anyhow!("usage: walkthrough SET RECIPE"));
    };
    let recording = read_set(heap, fs::read_to_string(rt, set_path)?.as_str())?;
    let text = fs::read_to_string(rt, recipe_path)?;
    let mut recipe = Recipe::new();
    recipe.read(text.as_bytes()).map_err(|_| anyhow!(
        "the recipe is refused: the program report tells line and field"
    ))?;
    walk(rt, &recording, recipe)
}

fn main(rt: HostRuntime) -> anyhow::Result<()> {
    run(&rt)
}

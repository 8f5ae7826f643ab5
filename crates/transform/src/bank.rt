ghost use Rattle.std.specs.Prelude.{◌≡◌};
ghost use Rattle.rules.specs.Samples.{bank};
ghost use Rattle.rules.proofs.EveryKind.{every-bank-lawful};

use crate::stage_work::undo_stage;
use crate::work::Work;
use rack::rack::Rack;
use rack::stages::Stages;
use sets::shape::Shape;
use sets::span_list::SpanList;
use stages::table::Table;

// A bank: the rack of the stages that a table holds.
#[derive(Clone, Copy)]
pub struct Bank<T> {
    pub table: T,
}

impl<T: Table> Stages for Bank<T> {
    ghost stages = { λ s. (bank (T.Table.size s.table) (T.Table.entry s.table)).stages };

    ghost fits = { λ s. (bank (T.Table.size s.table) (T.Table.entry s.table)).fits };

    ghost listed = { λ s. (bank (T.Table.size s.table) (T.Table.entry s.table)).listed };

    ghost widened = { λ s. (bank (T.Table.size s.table) (T.Table.entry s.table)).widened };

    ghost transformed = { λ s. (bank (T.Table.size s.table) (T.Table.entry s.table)).transformed };

    ghost contained = { λ s. (every-bank-lawful _ _ (T.Table.few s.table)).contained };

    ghost apart = { λ s. (every-bank-lawful _ _ (T.Table.few s.table)).apart };

    ghost local = { λ s. (every-bank-lawful _ _ (T.Table.few s.table)).local };

    fn count(&self) -> usize {
        self.table.len()
    }

    fn fit(&self, channels: usize, number: usize) -> bool {
        self.table.stage(channels, number).fits_in(channels)
    }

    fn lists(&self, shape: &Shape, number: usize, channel: usize) -> bool {
        let stage = self.table.stage(shape.channels, number);
        // the stage's channels end where it begins to fit
        stage.first() <= channel && !stage.fits_in(channel)
    }

    #[tactic(auto, using(crate::proofs::Widening::only_width))]
    fn widen(&self, shape: &Shape, number: usize, spans: &SpanList) -> Option<SpanList> {
        let stage = self.table.stage(shape.channels, number);
        let mut after = *spans;
        stage.spans(shape, &mut after).ok()?;
        Some(after)
    }

    fn forward(&self, shape: &Shape, number: usize, spans: &SpanList, area: &mut [i32]) {
        let stage = self.table.stage(shape.channels, number);
        stage.apply(shape, area);
    }

    fn backward(&self, shape: &Shape, number: usize, spans: &SpanList, area: &mut [i32]) -> bool {
        let stage = self.table.stage(shape.channels, number);
        undo_stage(&stage, shape, spans, area)
    }
}

impl<T: Table> Rack for Bank<T> {}

ghost use Rattle.stages.specs.Lines.{IndexedAs};

use crate::stage::Lift;

// What a lifting does to a line, by the line's indices: it takes its steps over two or more,
// doubles the sample of a single odd one, and leaves any other line as it is.
#[derive(Clone, Copy)]
pub enum Indexed {
    Many,
    LoneOdd,
    Still,
}

impl Lift {
    // What the lifting does to a line that begins at a place and has so many places.
    pub fn indexed(&self, place: u32, places: u32) -> Indexed
        ensures { IndexedAs self.now.level place places result }
    {
        let count = self.index_count(place, places);
        if count >= 2 {
            Indexed::Many
        } else if count == 1 && self.first_index(place) % 2 == 1 {
            Indexed::LoneOdd
        } else {
            Indexed::Still
        }
    }
}

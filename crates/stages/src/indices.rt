ghost use Rattle.std.specs.Prelude.{◌≡◌, ◌^◌, ◌≤◌};
ghost use Rattle.stages.specs.Lines.{first_index, index_count};

use crate::stage::Lift;

impl Lift {
    // How many places two indices of a line are apart.
    pub fn distance(&self) -> usize
        ensures value { result ≡ 2 ^ self.now.level }
        ensures some { 1 ≤ result }
        ensures small { result ≤ 32768 }
    {
        1 << self.level
    }

    // The first index of a line that begins at a place.
    pub fn first_index(&self, place: u32) -> usize
        ensures { result ≡ first_index self.now.level place }
    {
        let step = self.distance();
        // Rounded up as the definition is written: `div_ceil` says it in other words.
        // Casts lose nothing, as the check proves: a `try_from` would have a failure to answer that cannot come.
        (place as usize + (step - 1)) / step
    }

    // How many indices the line has that begins at a place and has so many places.
    pub fn index_count(&self, place: u32, places: u32) -> usize
        ensures { result ≡ index_count self.now.level place places }
    {
        let end = place as usize + places as usize;
        let last = end.saturating_sub(1) >> self.level;
        (last + 1).saturating_sub(self.first_index(place))
    }
}

// The six tables together, as they are lent: to read, and to write.
ghost use Rattle.std.specs.Prelude.{◌≡◌};
ghost use Rattle.lent.specs.Lent.{of_view, of_lent};

#[derive(Clone, Copy)]
pub struct View<'a> {
    pub degrees: &'a [u16],
    pub sides: &'a [u16],
    pub ends: &'a [u16],
    pub lengths: &'a [u32],
    pub volumes: &'a [u32],
    pub labels: &'a [u32],
}

#[derive(Drop)]
pub struct Tables<'a> {
    pub degrees: &'a mut [u16],
    pub sides: &'a mut [u16],
    pub ends: &'a mut [u16],
    pub lengths: &'a mut [u32],
    pub volumes: &'a mut [u32],
    pub labels: &'a mut [u32],
}

impl<'a> Tables<'a> {
    pub fn view(&self) -> View
        ensures { of_view result ≡ of_lent self.now }
    {
        View {
            degrees: self.degrees,
            sides: self.sides,
            ends: self.ends,
            lengths: self.lengths,
            volumes: self.volumes,
            labels: self.labels,
        }
    }
}

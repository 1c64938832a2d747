// The sides of an image that a pass works on.
ghost use Rattle.std.specs.Prelude.{◌≤◌};
ghost use Rattle.image.specs.Size.{max_side};

#[derive(Clone, Copy)]
pub(crate) struct Sides {
    pub width: usize,
    pub height: usize,
    ghost wide: { 1 ≤ width },
    ghost narrow: { width ≤ max_side },
    ghost low: { height ≤ max_side },
}

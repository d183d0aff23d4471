// The three files of an operator.
ghost use Rattle.std.specs.Prelude.{◌≡◌};
ghost use Rattle.report.specs.Lines.{source_name};

// Goods found, losses reported, and the conditions to try.
#[derive(Clone, Copy, PartialEq, Eq, Debug)]
pub enum Source {
    Left,
    Right,
    Draft,
}

impl Source {
    pub fn name(self) -> &'static str
        ensures { result.now ≡ source_name self }
    {
        match self {
            Source::Left => "left",
            Source::Right => "right",
            Source::Draft => "draft",
        }
    }
}

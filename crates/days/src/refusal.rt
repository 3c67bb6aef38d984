// What a refused call tells: a number, the layer that refuses, and a place.
ghost use Rattle.std.specs.Prelude.{◌≡◌, Some};
ghost use Rattle.days.specs.Layers.{name_of, text_of};
ghost use Rattle.days.specs.Questions.{ToldInOrder};

use std::fmt;

#[derive(Clone, Copy)]
pub enum Layer {
    Sheet,
    Source,
    Curve,
    Contract,
    Book,
}

#[derive(Clone, Copy)]
pub struct Refusal {
    pub number: u32,
    pub layer: Layer,
    pub place: usize,
}

impl Layer {
    // The layer's name as refusals spell it.
    pub fn name(&self) -> &'static str
        ensures { result.now ≡ name_of self.now }
    {
        match self {
            Layer::Sheet => "sheet",
            Layer::Source => "source",
            Layer::Curve => "curve",
            Layer::Contract => "contract",
            Layer::Book => "book",
        }
    }
}

impl fmt::Display for Layer {
    ghost output = { λ l. Some (name_of l) };

    fn fmt<W: fmt::Write>(&self, f: &mut fmt::Formatter<W>) -> fmt::Result {
        f.write_str(self.name())
    }
}

impl fmt::Display for Refusal {
    ghost output = { λ r. Some (text_of r) };

    fn fmt<W: fmt::Write>(&self, f: &mut fmt::Formatter<W>) -> fmt::Result {
        let Refusal {
            number,
            layer,
            place,
        } = *self;
        write!(f, "{number} {layer} {place}")
    }
}

// What a list of questions tells is what the first of them to fail tells.
pub fn told_in_order()
    ensures { ToldInOrder }
{}

ghost use Rattle.std.specs.Prelude.{Some};

use std::error::Error;
use std::fmt;

// The order that was asked for is none: refusal 7. (Its Display is written out, and not derived by thiserror, since what it prints is stated.)
#[derive(Clone, Copy, PartialEq, Eq, Debug)]
pub struct OrderFault {
    pub order: u8,
}

impl fmt::Display for OrderFault {
    ghost use Rattle.bintree.specs.Texts.{order_text};

    ghost output = { λ f. Some (order_text f) };

    fn fmt<W: fmt::Write>(&self, f: &mut fmt::Formatter<W>) -> fmt::Result {
        write!(f, "refused 7 order {}", self.order)
    }
}

impl Error for OrderFault {}

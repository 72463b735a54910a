#![tactic(auto)]

ghost use Rattle.std.specs.Prelude.{◌≡◌};
ghost use Rattle.faults.specs.Numbers.{refusal_number, layer_number, numbers};

use std::fmt;
use thiserror::Error;

// Why a call was refused. docs/REFUSALS.md has the same table.
#[derive(Clone, Copy, PartialEq, Eq, Debug, Error)]
pub enum Refusal {
    #[error("the key is empty")]
    EmptyKey = 1,
    #[error("key and value together exceed 1,008 bytes")]
    PairTooLong = 2,
    #[error("a page buffer or block is not 1,024 bytes")]
    NotABlock = 3,
    #[error("the place reaches outside its page")]
    OutsidePage = 4,
    #[error("the key is there already")]
    KeyExists = 5,
    #[error("the page is not good")]
    BadPage = 6,
    #[error("a set bit lies under the bit that a split would set")]
    BitBelow = 7,
    #[error("no number of splits makes room")]
    NoPlan = 8,
    #[error("the block's number is not below the limit")]
    PastLimit = 9,
    #[error("no claim is left")]
    NoClaim = 10,
    #[error("the block is not held")]
    NotHeld = 11,
    #[error("the device failed")]
    DeviceFailed = 12,
    #[error("the value is no code of this kind")]
    NoCode = 13,
}

// Who refused it: the database, or a device of the stack below it.
#[derive(Clone, Copy, PartialEq, Eq, Debug)]
pub enum Layer {
    Database = 0,
    Bottom = 1,
    Cache = 2,
    Quota = 3,
    Window = 4,
}

// A refusal: why, who, and the block's number as that layer was told it.
#[derive(Clone, Copy, PartialEq, Eq, Debug, Error)]
#[error("refused {number} by the {layer} at block {block}: {refusal}", number = u8::from(*refusal))]
pub struct Fault {
    pub refusal: Refusal,
    pub layer: Layer,
    pub block: u32,
}

impl From<Refusal> for u8 {
    ghost from_gives = { λ refusal n. n ≡ refusal_number refusal };

    fn from(refusal: Refusal) -> u8 {
        refusal as u8
    }
}

impl From<Layer> for u8 {
    ghost from_gives = { λ layer n. n ≡ layer_number layer };

    fn from(layer: Layer) -> u8 {
        layer as u8
    }
}

impl Layer {
    // A refusal by this layer.
    pub fn fault(self, refusal: Refusal, block: u32) -> Fault
        ensures { result ≡ record { refusal = refusal; layer = self; block = block } }
    {
        Fault {
            refusal,
            layer: self,
            block,
        }
    }
}

impl Fault {
    // A refusal by the database.
    pub fn database(refusal: Refusal, block: u32) -> Fault
        ensures { numbers result ≡ (refusal_number refusal, 0, block) }
    {
        Layer::Database.fault(refusal, block)
    }

    pub fn number(&self) -> u8
        ensures { result ≡ refusal_number self.now.refusal }
    {
        self.refusal.into()
    }

    pub fn layer_number(&self) -> u8
        ensures { result ≡ layer_number self.now.layer }
    {
        self.layer.into()
    }
}

// By hand: the kit has no derive of Display but that of an error, which a layer is not.
impl fmt::Display for Layer {
    fn fmt<W: fmt::Write>(&self, f: &mut fmt::Formatter<W>) -> fmt::Result {
        f.write_str(match self {
            Layer::Database => "database",
            Layer::Bottom => "bottom device",
            Layer::Cache => "cache",
            Layer::Quota => "quota",
            Layer::Window => "window",
        })
    }
}

// A symbol of a program: ten bytes.
ghost use Rattle.records.specs.Symbol.{symbol_code, symbol_decoded, symbol_fits};
ghost use Rattle.records.specs.SymbolLaws.{symbol_back, symbol_bounded, symbol_fixed, symbol_only};

use crate::{LONGEST, Record};

// Where a name lies: an address in a section, and what is added to it, which may be negative.
#[derive(Clone, Copy, PartialEq, Eq, Debug)]
pub struct Symbol {
    pub address: u32,
    pub section: u16,
    pub addend: i32,
}

#[tactic(auto, unfolding(crate::specs::Symbol::symbol_code, crate::specs::Symbol::symbol_decoded, crate::specs::Symbol::symbol_fits))]
impl Record for Symbol {
    ghost code = { symbol_code };

    ghost decoded = { symbol_decoded };

    ghost fits = { symbol_fits };

    ghost width = { 10 };

    ghost bounded = { symbol_bounded };

    ghost back = { symbol_back };

    ghost only = { symbol_only };

    ghost fixed = { symbol_fixed };

    fn encode(&self, into: &mut [u8; LONGEST]) -> usize {
        // By name, so that a new field cannot be left out.
        let Symbol {
            address,
            section,
            addend,
        } = *self;
        into[..4].copy_from_slice(&address.to_le_bytes());
        into[4..6].copy_from_slice(&section.to_le_bytes());
        into[6..10].copy_from_slice(&addend.to_le_bytes());
        10
    }

    fn decode(bytes: &[u8]) -> Option<Symbol> {
        let [a0, a1, a2, a3, s0, s1, d0, d1, d2, d3] = *bytes else {
            return None;
        };
        Some(Symbol {
            address: u32::from_le_bytes([a0, a1, a2, a3]),
            section: u16::from_le_bytes([s0, s1]),
            addend: i32::from_le_bytes([d0, d1, d2, d3]),
        })
    }
}

// The record kinds, decoded anew.
use crate::model::blocks::byte_at;
use records::{Member, Record, Sort, Symbol};

// A kind of record, decoded plainly.
pub trait Plain: Record + Drop {
    fn plainly(bytes: &[u8]) -> Option<Self>;
}

impl Plain for Symbol {
    fn plainly(bytes: &[u8]) -> Option<Symbol> {
        if bytes.len() != 10 {
            return None;
        }
        Some(Symbol {
            address: u32_at(bytes, 0),
            section: u16::from_le_bytes([byte_at(bytes, 4), byte_at(bytes, 5)]),
            addend: u32_at(bytes, 6).cast_signed(),
        })
    }
}

impl Plain for Member {
    fn plainly(bytes: &[u8]) -> Option<Member> {
        if bytes.len() != 9 {
            return None;
        }
        Some(Member {
            offset: u32_at(bytes, 0),
            length: u32_at(bytes, 4),
            sort: match byte_at(bytes, 8) {
                0 => Sort::Object,
                1 => Sort::Data,
                2 => Sort::Other,
                _ => return None,
            },
        })
    }
}

fn u32_at(bytes: &[u8], at: usize) -> u32 {
    u32::from_le_bytes([
        byte_at(bytes, at),
        byte_at(bytes, at.saturating_add(1)),
        byte_at(bytes, at.saturating_add(2)),
        byte_at(bytes, at.saturating_add(3)),
    ])
}

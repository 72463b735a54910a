// What is told of a name: the bytes of its value, or the record that they are the code of.
use crate::reading::value_of;
use crate::text::hex;
use database::Database;
use devices::Device;
use faults::Fault;
use pages::PAGE;
use records::{Member, Record, Sort, Symbol};
use std::alloc::{AllocError, Global};

// A kind of answer to a name, and the word that it begins with.
pub(crate) trait Wanted {
    const WORD: &'static str;

    // The answer as text, given that there was memory. The page that was read for it is then in the buffer.
    fn look_up<D: Device>(
        heap: Global,
        database: &mut Database<D>,
        name: &[u8],
        page: &mut [u8; PAGE],
    ) -> Result<Result<Option<String>, Fault>, AllocError>;
}

// The bytes, in hexadecimal.
pub(crate) struct Value;

impl Wanted for Value {
    const WORD: &'static str = "name";

    fn look_up<D: Device>(
        heap: Global,
        database: &mut Database<D>,
        name: &[u8],
        page: &mut [u8; PAGE],
    ) -> Result<Result<Option<String>, Fault>, AllocError> {
        match value_of(database, name, page) {
            Ok(Some([])) => Ok(Ok(Some(String::from_str(heap, "(empty)")?))),
            Ok(Some(value)) => Ok(Ok(Some(hex(heap, value)?))),
            Ok(None) => Ok(Ok(None)),
            Err(fault) => Ok(Err(fault)),
        }
    }
}

impl Wanted for Symbol {
    const WORD: &'static str = "symbol";

    fn look_up<D: Device>(
        heap: Global,
        database: &mut Database<D>,
        name: &[u8],
        page: &mut [u8; PAGE],
    ) -> Result<Result<Option<String>, Fault>, AllocError> {
        match database.get::<Symbol>(name, page) {
            Ok(Some(symbol)) => Ok(Ok(Some(symbol_text(heap, symbol)?))),
            Ok(None) => Ok(Ok(None)),
            Err(fault) => Ok(Err(fault)),
        }
    }
}

impl Wanted for Member {
    const WORD: &'static str = "member";

    fn look_up<D: Device>(
        heap: Global,
        database: &mut Database<D>,
        name: &[u8],
        page: &mut [u8; PAGE],
    ) -> Result<Result<Option<String>, Fault>, AllocError> {
        match database.get::<Member>(name, page) {
            Ok(Some(member)) => Ok(Ok(Some(member_text(heap, member)?))),
            Ok(None) => Ok(Ok(None)),
            Err(fault) => Ok(Err(fault)),
        }
    }
}

fn symbol_text(heap: Global, symbol: Symbol) -> Result<String, AllocError> {
    let Symbol {
        address,
        section,
        addend,
    } = symbol;
    format!(in heap; "address 0x{address:08x}, section {section}, addend {addend}")
}

fn member_text(heap: Global, member: Member) -> Result<String, AllocError> {
    let Member {
        offset,
        length,
        sort,
    } = member;
    let sort = match sort {
        Sort::Object => "object",
        Sort::Data => "data",
        Sort::Other => "other",
    };
    format!(in heap; "offset {offset}, length {length}, {sort}")
}

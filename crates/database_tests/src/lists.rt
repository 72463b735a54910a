// Lists of calls: what each is answered, and that the page buffers come back.
use crate::building::{MEMBER, flat_of, split};
use database::Database;
use devices::BLOCK;
use records::{Member, Symbol};
use runs::kinds::{Either, Only};
use runs::{Answer, Call, Outcome, run};
use std::alloc::{AllocError, Global};
use std::test::Fail;

// A record of either kind, and which kind.
type Item = Either<Only<Symbol>, Only<Member>>;

type Kind = Either<(), ()>;

const AS_SYMBOL: Kind = Either::First(());

const AS_MEMBER: Kind = Either::Second(());

// A page buffer of so many sevens.
fn sevens(heap: Global, length: usize) -> Result<Vec<u8>, AllocError> {
    vec![in heap; 7u8; length]
}

// The number of a refusal, and what stands in the page buffer that came back.
fn refused(outcome: &Outcome<Item>) -> (Option<u8>, Option<&[u8]>) {
    let number = match &outcome.answer {
        Ok(_) => None,
        Err(fault) => Some(fault.number()),
    };
    let page = match &outcome.page {
        Some(page) => Some(page.as_slice()),
        None => None,
    };
    (number, page)
}

#[test]
fn buffers_that_are_no_page(rt: HostRuntime) -> Result<(), Fail> {
    let heap = rt.alloc();
    let mut database = split(heap)?;
    let calls: Vec<Call<Item, Kind>> = vec![in heap;
        Call::Fetch(b"b", sevens(heap, BLOCK - 1)?),
        Call::Get(b"b", AS_SYMBOL, sevens(heap, BLOCK + 1)?),
        Call::Step((0, 0), sevens(heap, 0)?),
        Call::Fetch(b"", sevens(heap, 2)?),
        Call::Flush,
    ]?;
    let outcomes = run(heap, &mut database, calls)?;
    let told = outcomes.as_slice();
    assert_eq!(rt; told.len(), 5);
    assert!(rt; refused(&told[0]) == (Some(3), Some([7; BLOCK - 1].as_slice())));
    assert!(rt; refused(&told[1]) == (Some(3), Some([7; BLOCK + 1].as_slice())));
    assert!(rt; refused(&told[2]) == (Some(3), Some([].as_slice())));
    assert!(rt; refused(&told[3]) == (Some(1), Some([7; 2].as_slice())));
    assert!(rt; refused(&told[4]) == (None, None));
    Ok(())
}

#[test]
fn a_record_that_was_put_comes_back(rt: HostRuntime) -> Result<(), Fail> {
    let heap = rt.alloc();
    let mut database = Database::new(flat_of(heap, 0, 5)?);
    let calls: Vec<Call<Item, Kind>> = vec![in heap;
        Call::Put(b"m", Either::Second(Only(MEMBER))),
        Call::Get(b"m", AS_MEMBER, sevens(heap, BLOCK)?),
        Call::Get(b"m", AS_SYMBOL, sevens(heap, BLOCK)?),
    ]?;
    let outcomes = run(heap, &mut database, calls)?;
    let told = outcomes.as_slice();
    assert_eq!(rt; told.len(), 3);
    assert!(rt; refused(&told[0]) == (None, None));
    assert!(rt;
        matches!(&told[1].answer, Ok(Answer::Got(Some(Either::Second(Only(item))))) if *item == MEMBER)
    );
    assert!(rt; refused(&told[2]) == (Some(13), Some([7; BLOCK].as_slice())));
    Ok(())
}

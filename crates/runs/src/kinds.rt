// Several kinds of records as one.
ghost use Rattle.std.specs.Prelude.{◌≡◌, ℕ, List, length, Ok, Option as Maybe, Some};
ghost use Rattle.calls.specs.Fetch.{BufferHas, fetch_calls, got, home_bytes};
ghost use Rattle.calls.specs.Store.{store_calls, stored};
ghost use Rattle.calls.specs.declared.Mode.TheVariants.{Replace};
ghost use Rattle.contents.specs.Blocks.{blocks_of};
ghost use Rattle.lookup.specs.Made.{Made};
ghost use Rattle.runs.specs.declared.kinds.Either.TheVariants.{First, Second};
ghost use Rattle.std.specs.Option.{option_map};
ghost use Rattle.std.proofs.Common.{ap};

use database::Database;
use devices::Device;
use faults::Fault;
use records::Record;

// Records of several kinds: each is put as one of its own kind, and a value is read as the kind that is asked for.
pub trait Kinds: Sized {
    // which kind
    type Kind: Drop;

    // the bytes of a record
    ghost code: { Self → List ℕ };

    // the record of a kind that bytes stand for
    ghost decoded: { Self.Kind → List ℕ → Maybe Self };

    // the kind of a record
    ghost own_kind: { Self → Self.Kind };

    // every number of the record is one that its field can have
    ghost fits: { Self → Type 0 };

    // Stores the record's code, whatever value the key has.
    fn put<D: Device>(&self, database: &mut Database<D>, key: &[u8]) -> Result<(), Fault>
        ensures { Made D.Device.steps D.Device.meaning database.old.device (λ blocks. store_calls blocks key.now (code self.now) Replace) (λ blocks. stored blocks key.now (code self.now) Replace) result database.new.device };

    // The record of this kind that the key's value is the code of.
    fn get<D: Device>(
        kind: &Self::Kind,
        database: &mut Database<D>,
        key: &[u8],
        page: &mut [u8],
    ) -> Result<Option<Self>, Fault>
        ensures made { Made D.Device.steps D.Device.meaning database.old.device (λ blocks. fetch_calls blocks key.now (length page.old)) (λ blocks. got (decoded kind.now) blocks key.now (length page.old)) result database.new.device }
        ensures page { BufferHas result (home_bytes (blocks_of (D.Device.meaning database.old.device)) key.now) page.old page.new };

    // the code of a record is read as it, by its own kind
    ghost back: { (x : Self) → fits x → decoded (own_kind x) (code x) ≡ Some x };
}

// Records of one kind.
#[derive(Clone, Copy, PartialEq, Eq, Debug, Drop)]
pub struct Only<R>(pub R);

impl<R: Record> Kinds for Only<R> {
    type Kind = ();

    ghost code = { λ x. R.Record.code (x.0) };

    ghost decoded = { λ _ bytes. option_map (λ r. record { 0 = r }) (R.Record.decoded bytes) };

    ghost own_kind = { λ _. tt };

    ghost fits = { λ x. R.Record.fits (x.0) };

    ghost back = { λ x fits. ap (option_map (λ r. record { 0 = r })) (R.Record.back (x.0) fits) };

    fn put<D: Device>(&self, database: &mut Database<D>, key: &[u8]) -> Result<(), Fault> {
        database.put(key, &self.0)
    }

    fn get<D: Device>(
        _kind: &(),
        database: &mut Database<D>,
        key: &[u8],
        page: &mut [u8],
    ) -> Result<Option<Only<R>>, Fault> {
        Ok(database.get::<R>(key, page)?.map(Only))
    }
}

// Records of two kinds, or of either's kinds.
#[derive(Clone, Copy, PartialEq, Eq, Debug, Drop)]
pub enum Either<A, B> {
    First(A),
    Second(B),
}

impl<A, B> Either<A, B> {
    // A record of the first kind, if there is one, as one of the two.
    fn first(found: Option<A>) -> Option<Self>
        ensures { result ≡ option_map First found }
    {
        Some(Either::First(found?))
    }

    // A record of the second kind, if there is one, as one of the two.
    fn second(found: Option<B>) -> Option<Self>
        ensures { result ≡ option_map Second found }
    {
        Some(Either::Second(found?))
    }
}

impl<A: Kinds, B: Kinds> Kinds for Either<A, B> {
    type Kind = Either<A::Kind, B::Kind>;

    ghost code = { elim [ First a ↦ A.Kinds.code a | Second b ↦ B.Kinds.code b ] };

    ghost decoded = { λ kind bytes. elim kind [ First k ↦ option_map First (A.Kinds.decoded k bytes) | Second k ↦ option_map Second (B.Kinds.decoded k bytes) ] };

    ghost own_kind = { elim [ First a ↦ First (A.Kinds.own_kind a) | Second b ↦ Second (B.Kinds.own_kind b) ] };

    ghost fits = { elim [ First a ↦ A.Kinds.fits a | Second b ↦ B.Kinds.fits b ] };

    ghost back = { elim [ First a ↦ λ fits. ap (option_map First) (A.Kinds.back a fits) | Second b ↦ λ fits. ap (option_map Second) (B.Kinds.back b fits) ] };

    fn put<D: Device>(&self, database: &mut Database<D>, key: &[u8]) -> Result<(), Fault> {
        match self {
            Either::First(record) => record.put(database, key),
            Either::Second(record) => record.put(database, key),
        }
    }

    fn get<D: Device>(
        kind: &Either<A::Kind, B::Kind>,
        database: &mut Database<D>,
        key: &[u8],
        page: &mut [u8],
    ) -> Result<Option<Either<A, B>>, Fault> {
        match kind {
            Either::First(kind) => Ok(Either::first(A::get(kind, database, key, page)?)),
            Either::Second(kind) => Ok(Either::second(B::get(kind, database, key, page)?)),
        }
    }
}

// Pieces of versions that chunks may have in common.
ghost use Rattle.std.specs.Prelude.{◌≡◌, ◌+◌, ◌-◌, ◌≤◌, ◌++◌, [], ◌∷◌, ◌<◌, length, slice_get, vec_len, vec_capacity, IfOk, IfErr, OnOk, OnErr, Some, None, MatchOption, MatchResult, IfSome, IsTrue};
ghost use Rattle.delta_store.specs.Chunks.{pieces_in, shared_in};

use crate::version::LinkedVersion;
use cs_base::Memory;
use std::alloc::Global;
use std::sync::Arc;

/// With so many pieces a chunk is gathered before it grows, since a look-up walks along them.
const PIECES: usize = 16;

/// Versions that others may have in common, piece after piece. They are never changed.
#[derive(Debug, Drop)]
pub struct Pieces {
    /// The first piece. Most chunks have no other, and a share of them takes no memory then.
    first: Option<Arc<Vec<LinkedVersion>>>,
    /// The pieces after it.
    more: Vec<Arc<Vec<LinkedVersion>>>,
}

/// The version at a place of pieces, or how far the place is past the last one.
fn find_in(pieces: &[Arc<Vec<LinkedVersion>>], place: usize) -> Result<&LinkedVersion, usize>
    ensures { MatchResult result (λ version. slice_get (pieces_in pieces.now) place ≡ Some version.now) (λ past. length (pieces_in pieces.now) + past ≡ place) }
{
    let mut at = place;
    for piece in pieces {
        if at < piece.len() {
            return Ok(&piece[at]);
        }
        at -= piece.len();
    }
    Err(at)
}

/// How many of `places` come after these pieces.
fn left_after(pieces: &[Arc<Vec<LinkedVersion>>], places: usize) -> usize
    ensures { result ≡ places - length (pieces_in pieces.now) }
{
    let mut left = places;
    for piece in pieces {
        left = left.saturating_sub(piece.len());
    }
    left
}

/// The same pieces, in a vector of its own.
fn share_each(
    alloc: Global,
    pieces: &[Arc<Vec<LinkedVersion>>],
) -> Result<Vec<Arc<Vec<LinkedVersion>>>, Memory>
    ensures { IfOk result (λ shared. pieces_in shared.items ≡ pieces_in pieces.now) }
{
    let mut shared = Vec::with_capacity(alloc, pieces.len())?;
    for piece in pieces {
        shared.push(Arc::try_clone(piece)?)?;
    }
    Ok(shared)
}

/// Adds copies of versions.
fn add_copies(copied: &mut Vec<LinkedVersion>, versions: &[LinkedVersion]) -> Result<(), Memory>
    ensures { OnOk result (copied.new.items ≡ copied.old.items ++ versions.now) }
{
    for version in versions {
        copied.push(version.copy()?)?;
    }
    Ok(())
}

/// Adds copies of the versions of pieces.
fn add_pieces(
    copied: &mut Vec<LinkedVersion>,
    pieces: &[Arc<Vec<LinkedVersion>>],
) -> Result<(), Memory>
    ensures { OnOk result (copied.new.items ≡ copied.old.items ++ pieces_in pieces.now) }
{
    for piece in pieces {
        add_copies(copied, piece)?;
    }
    Ok(())
}

impl Pieces {
    /// No pieces. It takes no memory.
    pub fn new(alloc: Global) -> Pieces
        ensures { shared_in result ≡ [] }
    {
        Pieces {
            first: None,
            more: Vec::new(alloc),
        }
    }

    /// Whether there is no piece.
    pub fn is_empty(&self) -> bool
        ensures { IsTrue result → (self.now.first ≡ None) × (self.now.more.items ≡ []) }
    {
        self.first.is_none() && self.more.is_empty()
    }

    /// Whether there are so many that they are to be gathered.
    pub fn are_many(&self) -> bool {
        self.more.len() >= PIECES - 1
    }

    /// The version at a place of the first piece, if that goes so far.
    pub fn in_first(&self, place: usize) -> Option<&LinkedVersion>
        ensures { IfSome result (λ version. slice_get (shared_in self.now) place ≡ Some version.now) }
    {
        match &self.first {
            Some(piece) => piece.get(place),
            None => None,
        }
    }

    /// The version at a place, or how far the place is past the last one.
    pub fn find(&self, place: usize) -> Result<&LinkedVersion, usize>
        ensures { MatchResult result (λ version. slice_get (shared_in self.now) place ≡ Some version.now) (λ past. length (shared_in self.now) + past ≡ place) }
    {
        match &self.first {
            Some(piece) => {
                if place < piece.len() {
                    return Ok(&piece[place]);
                }
                find_in(&self.more, place - piece.len())
            }
            None => find_in(&self.more, place),
        }
    }

    /// How many of `places` come after them.
    pub fn left(&self, places: usize) -> usize
        ensures { result ≡ places - length (shared_in self.now) }
    {
        match &self.first {
            Some(piece) => left_after(&self.more, places.saturating_sub(piece.len())),
            None => left_after(&self.more, places),
        }
    }

    /// Takes the last piece, where nobody else has it, with no copy of a version.
    pub fn take_last(&mut self) -> Option<Vec<LinkedVersion>>
        ensures { MatchOption result (shared_in self.new ≡ shared_in self.old) (λ last. shared_in self.old ≡ shared_in self.new ++ last.items) }
    {
        match self.more.pop() {
            Some(piece) => match Arc::try_unwrap(piece) {
                Ok(last) => Some(last),
                Err(piece) => {
                    self.more.push_reserved(piece);
                    None
                }
            },
            None => self.take_first(),
        }
    }

    /// Takes the first piece, where there is no other, and nobody else has it.
    fn take_first(&mut self) -> Option<Vec<LinkedVersion>>
        requires { self.old.more.items ≡ [] }
        ensures { MatchOption result (shared_in self.new ≡ shared_in self.old) (λ last. shared_in self.old ≡ shared_in self.new ++ last.items) }
    {
        match Arc::try_unwrap(self.first.take()?) {
            Ok(last) => Some(last),
            Err(piece) => {
                self.first = Some(piece);
                None
            }
        }
    }

    /// Adds a piece, with no copy of a version. Without memory the versions come back.
    pub fn push(
        &mut self,
        alloc: Global,
        versions: Vec<LinkedVersion>,
    ) -> Result<(), Vec<LinkedVersion>>
        ensures ok { OnOk result (shared_in self.new ≡ shared_in self.old ++ versions.items) }
        ensures err { OnErr result (shared_in self.new ≡ shared_in self.old) }
        ensures back { IfErr result (λ back. back ≡ versions) }
    {
        if self.is_empty() {
            return self.push_first(alloc, versions);
        }
        if self.more.reserve(1).is_err() {
            return Err(versions);
        }
        match Arc::new(alloc, versions) {
            Ok(piece) => {
                self.more.push_reserved(piece);
                Ok(())
            }
            Err(refused) => Err(refused.value),
        }
    }

    /// Adds a piece where there is none.
    fn push_first(
        &mut self,
        alloc: Global,
        versions: Vec<LinkedVersion>,
    ) -> Result<(), Vec<LinkedVersion>>
        requires { (self.old.first ≡ None) × (self.old.more.items ≡ []) }
        ensures ok { OnOk result (shared_in self.new ≡ shared_in self.old ++ versions.items) }
        ensures err { OnErr result (shared_in self.new ≡ shared_in self.old) }
        ensures back { IfErr result (λ back. back ≡ versions) }
    {
        match Arc::new(alloc, versions) {
            Ok(piece) => {
                self.first = Some(piece);
                Ok(())
            }
            Err(refused) => Err(refused.value),
        }
    }

    /// The same pieces.
    pub fn share(&self) -> Result<Pieces, Memory>
        ensures { IfOk result (λ shared. shared_in shared ≡ shared_in self.now) }
    {
        let more = share_each(*self.more.allocator(), &self.more)?;
        let first = match &self.first {
            Some(piece) => Some(Arc::try_clone(piece)?),
            None => None,
        };
        Ok(Pieces { first, more })
    }

    /// Copies of their versions, in a vector with room for `room`.
    pub fn copied(&self, alloc: Global, room: usize) -> Result<Vec<LinkedVersion>, Memory>
        ensures { IfOk result (λ copied. copied.items ≡ shared_in self.now) }
    {
        let mut copied = Vec::with_capacity(alloc, room)?;
        if let Some(piece) = &self.first {
            add_copies(&mut copied, piece)?;
        }
        add_pieces(&mut copied, &self.more)?;
        Ok(copied)
    }
}

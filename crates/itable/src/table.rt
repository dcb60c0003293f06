//! I-tables.

ghost use Rattle.std.specs.Prelude.{◌≡◌, ◌<◌, ◌≤◌, ◌==◌, ◌↔◌, ◌++◌, ◌||◌, [], ℕ, true, Some, None, IsSome, IsOk};
ghost use Rattle.std.specs.Prelude.{Ok, OnOk, OnErr, IfOk, IfSome, filter_map, length, map, if◌then◌else◌};
ghost use Rattle.std.specs.List.{All, range_with_len, slice_set};
ghost use Rattle.layout.specs.Hash.{hash};
ghost use Rattle.std.specs.Option.{option_map};
ghost use Rattle.std.specs.Ordering.{nat_cmp};
ghost use Rattle.std.specs.Vec.{vec_items};
ghost use Rattle.layout.specs.Ascending.{without_row};
ghost use Rattle.layout.specs.Format.{whole};
ghost use Rattle.itable.specs.Chunk.{chunk, chunk as chunk_format, chunk_number};
ghost use Rattle.itable.specs.Root.{root, root as root_format, chunk_at, number_of};
ghost use Rattle.itable.specs.ITable.{IsTable, digest_at, digest_in, with_digest, without_digest, chunk_of, IsBare};
ghost use Rattle.itable.specs.ITable.{text_of_chunk, unloaded_at, loaded as is_loaded};
ghost use Rattle.itable.specs.ITable.{listing as listing_of, listings as listings_of, root_of, handle_of};
ghost use Rattle.itable.specs.ITable.{IsKnownByDigests, IsKnownByHandle, new_chunk, new_texts, texts as texts_of};

use crate::chunk::{Chunk, ChunkNumber, Pair, write_chunk};
use crate::known::{known_at, make_room, set_known};
use crate::listed::{listed_at, take_listed};
use crate::pairs::{are_same, count_below, pair_at, put, put_run, run_of, take_out};
use crate::root::{ListedChunk, Root, write_root};
use layout::{Digest, INumber, Memory, Principal, Writer, digest};
use std::alloc::Allocator;
use std::marker::Model;

/// Forgets the digest of the chunk that an i-number is in.
fn forget<A: Allocator>(known: &mut Vec<Option<Digest>, A>, i_number: INumber)
    ensures { known.new.items ≡ slice_set known.old.items (chunk_number i_number) None }
{
    set_known(known, ChunkNumber::of(i_number), None);
}

/// A digest for each i-number of a principal that has one. A chunk's pairs may not be loaded: it has its digest alone
/// then. Of each other chunk it keeps the digest of the text once that was computed, until a pair of the chunk changes,
/// so that a handle costs the hashes of the chunks that changed.
#[derive(Drop)]
pub struct ITable<A: Allocator> {
    principal: Principal,
    pairs: Vec<Pair, A>,
    known: Vec<Option<Digest>, A>,
    unloaded: Vec<ListedChunk, A>,
}

impl<A: Allocator> Model for ITable<A> {
    ghost use Rattle.itable.specs.ITable.{ITable};
    ghost use Rattle.itable.specs.Known.{IsKept};

    ghost Value = { ITable };

    ghost view = { λ t. record { principal = t.principal; pairs = t.pairs.items; unloaded = t.unloaded.items } };

    ghost invariant = { λ t. IsKept
        (record { principal = t.principal; pairs = t.pairs.items; unloaded = t.unloaded.items }) t.known.items };
}

impl<A: Allocator + Copy> ITable<A> {
    /// The table of a principal, without pairs.
    pub fn empty(alloc: A, principal: Principal) -> ITable<A>
        ensures same { result ≡ record { principal = principal; pairs = []; unloaded = [] } }
        // Its root lists no chunk.
        ensures listed { listings_of result ≡ [] }
    {
        // It fits where a root has it.
        let _number = principal.get();
        ITable {
            principal,
            pairs: Vec::new(alloc),
            known: Vec::new(alloc),
            unloaded: Vec::new(alloc),
        }
    }

    /// The table of a root, with none of its chunks loaded. It takes no memory.
    pub fn of_root(alloc: A, root: Root<A>) -> ITable<A>
        ensures same { result ≡ record { principal = root.principal; pairs = []; unloaded = root.chunks } }
        // Its root is this one.
        ensures listed { listings_of result ≡ root.chunks }
        ensures handle { handle_of result ≡ hash (root_format.spell root) }
    {
        ITable {
            principal: root.principal(),
            pairs: Vec::new(alloc),
            known: Vec::new(alloc),
            unloaded: root.into_chunks(),
        }
    }
}

impl<A: Allocator> ITable<A> {
    /// Whose table it is.
    pub fn principal(&self) -> Principal
        ensures same { result ≡ self.now.principal }
        ensures is_table { IsTable self.now }
    {
        self.principal
    }

    /// The pairs of the loaded chunks, ascending by i-number.
    pub fn pairs(&self) -> &[Pair]
        ensures { result.now ≡ self.now.pairs }
    {
        &self.pairs
    }

    /// Whether the chunk that an i-number is in is loaded.
    pub fn loaded(&self, i_number: INumber) -> bool
        ensures { result ≡ is_loaded self.now i_number }
    {
        self.unloaded(i_number).is_none()
    }

    /// The chunk that an i-number is in, if it isn't loaded.
    pub fn unloaded(&self, i_number: INumber) -> Option<ListedChunk>
        ensures found { result ≡ unloaded_at self.now (chunk_number i_number) }
        ensures number { IfSome result (λ chunk. chunk.number ≡ chunk_number i_number) }
    {
        listed_at(&self.unloaded, ChunkNumber::of(i_number))
    }

    /// The digest at an i-number, if it has one.
    pub fn get(&self, i_number: INumber) -> Option<Digest>
        requires loaded { is_loaded self.now i_number ≡ true }
        ensures found { result ≡ digest_at self.now i_number }
        // It is what the i-number's chunk says.
        ensures in_chunk { (i : ℕ) → digest_at self.now i ≡ digest_in (chunk_of (chunk_number i) self.now).pairs i }
    {
        pair_at(&self.pairs, i_number).map(|pair| pair.digest)
    }

    /// Sets the digest at an i-number. After an error the table is as before.
    pub fn set(&mut self, i_number: INumber, digest: Digest) -> Result<(), Memory>
        requires loaded { is_loaded self.old i_number ≡ true }
        ensures ok { OnOk result (self.new ≡ with_digest self.old i_number digest) }
        // It takes memory only where the i-number has no digest.
        ensures mapped { IsSome (digest_at self.old i_number) → IsOk result }
        ensures digests { OnOk result ((i : ℕ)
            → digest_at self.new i ≡ (if i_number == i then Some digest else digest_at self.old i)) }
        ensures err { OnErr result (self.new ≡ self.old) }
    {
        // They fit where a chunk has them.
        let _number = i_number.get();
        let _bytes = digest.as_bytes();
        forget(&mut self.known, i_number);
        put(&mut self.pairs, Pair { i_number, digest })
    }

    /// Takes the digest at an i-number away, and gives it, if there is one.
    pub fn remove(&mut self, i_number: INumber) -> Option<Digest>
        requires loaded { is_loaded self.old i_number ≡ true }
        ensures found { result ≡ digest_at self.old i_number }
        ensures left { self.new ≡ without_digest self.old i_number }
        ensures digests { (i : ℕ) → digest_at self.new i ≡ (if i_number == i then None else digest_at self.old i) }
    {
        // Its chunk is below 64.
        let _number = i_number.get();
        forget(&mut self.known, i_number);
        take_out(&mut self.pairs, i_number).map(|pair| pair.digest)
    }

    /// Takes in a chunk that isn't loaded, and whose text has the digest that the root lists, so that the root and the
    /// handle stay, and need no hash. Chunks may come in any order. After an error the table is as before.
    pub fn load(&mut self, chunk: &Chunk<A>, digest: Digest) -> Result<(), Memory>
        requires listed { unloaded_at self.old chunk.now.number
            ≡ Some (record { number = chunk.now.number; digest = digest }) }
        requires digest { digest ≡ hash (chunk_format.spell chunk.now) }
        ensures principal { OnOk result (self.new.principal ≡ self.old.principal) }
        ensures unloaded { OnOk result (self.new.unloaded
            ≡ without_row nat_cmp number_of self.old.unloaded chunk.now.number) }
        // So it is loaded, and the others are as they were.
        ensures loaded { OnOk result ((i : ℕ)
            → is_loaded self.new i ≡ (is_loaded self.old i || (chunk_number i == chunk.now.number))) }
        // In the chunk it has what the chunk says, and elsewhere what it had.
        ensures digests { OnOk result ((i : ℕ)
            → digest_at self.new i ≡ (if chunk_number i == chunk.now.number then digest_in chunk.now.pairs i
            else digest_at self.old i)) }
        // The pairs of a chunk above all that are loaded stand last.
        ensures last { OnOk result (All (λ p. chunk_number p.i_number < chunk.now.number) self.old.pairs
            → self.new.pairs ≡ self.old.pairs ++ chunk.now.pairs) }
        // Its root stays.
        ensures listed { OnOk result (listings_of self.new ≡ listings_of self.old) }
        ensures handle { OnOk result (handle_of self.new ≡ handle_of self.old) }
        ensures err { OnErr result (self.new ≡ self.old) }
    {
        let number = chunk.number();
        make_room(&mut self.known)?;
        let place = count_below(&self.pairs, number.get());
        put_run(&mut self.pairs, place, chunk.pairs())?;
        take_listed(&mut self.unloaded, number);
        set_known(&mut self.known, number, Some(digest));
        Ok(())
    }

    /// The laws of a chunk's text.
    fn chunk_invariant(&self, number: ChunkNumber)
        ensures absent { (text_of_chunk self.now number ≡ None) ↔ IsBare number self.now }
        ensures reads { IfSome (text_of_chunk self.now number)
            (λ text. whole chunk text ≡ Ok (chunk_of number self.now)) }
        ensures few { length (chunk_of number self.now).pairs ≤ 64 }
    {
        // The chunk is below 64, and the table is as its type keeps it.
        let _number = number.get();
        let _table = &self.principal;
    }

    /// The laws of the root's text and its digest.
    fn root_invariant(&self)
        ensures reads { whole root (root.spell (root_of self.now)) ≡ Ok (root_of self.now) }
        ensures lists { (n : ℕ) → n < 64 → chunk_at (root_of self.now) n ≡ listing_of self.now n }
        ensures few { length (listings_of self.now) ≤ 64 }
        ensures known { IsKnownByDigests self.now }
        ensures knows { IsKnownByHandle self.now }
    {
        // The table is as its type keeps it.
        let _table = &self.principal;
    }
}

/// The text of a chunk of these pairs.
fn spelled<A: Allocator + Copy>(
    alloc: A,
    number: ChunkNumber,
    pairs: &[Pair],
) -> Result<Vec<u8, A>, Memory>
    requires { length pairs.now ≤ 64 }
    ensures { IfOk result (λ text. text.items ≡ chunk.spell (record { number = number; pairs = pairs.now })) }
{
    let mut writer = Writer::new(alloc);
    write_chunk(&mut writer, number, pairs)?;
    Ok(writer.finish())
}

/// The text of the root of these chunks.
fn spelled_root<A: Allocator + Copy>(
    alloc: A,
    principal: Principal,
    chunks: &[ListedChunk],
) -> Result<Vec<u8, A>, Memory>
    requires { length chunks.now ≤ 64 }
    ensures { IfOk result (λ text. text.items ≡ root.spell (record { principal = principal; chunks = chunks.now })) }
{
    let mut writer = Writer::new(alloc);
    write_root(&mut writer, principal, chunks)?;
    Ok(writer.finish())
}

impl<A: Allocator + Copy> ITable<A> {
    /// The same table once more, which keeps the digests of chunks that are known. The error is Memory.
    pub fn copy(&self, alloc: A) -> Result<ITable<A>, Memory>
        ensures { IfOk result (λ copy. copy ≡ self.now) }
    {
        Ok(ITable {
            principal: self.principal,
            pairs: Vec::from_slice(alloc, &self.pairs)?,
            known: Vec::from_slice(alloc, &self.known)?,
            unloaded: Vec::from_slice(alloc, &self.unloaded)?,
        })
    }

    /// The text of a chunk, if it is loaded and any of its i-numbers has a digest.
    pub fn chunk_text(&self, alloc: A, number: ChunkNumber) -> Result<Option<Vec<u8, A>>, Memory>
        ensures text { IfOk result (λ text. option_map vec_items text ≡ text_of_chunk self.now number) }
        // There is none exactly where no i-number of the chunk has a digest among the pairs.
        ensures absent { (text_of_chunk self.now number ≡ None) ↔ IsBare number self.now }
        // It is read as the chunk.
        ensures reads { IfSome (text_of_chunk self.now number)
            (λ text. whole chunk text ≡ Ok (chunk_of number self.now)) }
    {
        self.chunk_invariant(number);
        let pairs = run_of(&self.pairs, number);
        if pairs.is_empty() {
            return Ok(None);
        }
        let text = spelled(alloc, number, pairs)?;
        Ok(Some(text))
    }

    /// A chunk as the root lists it, if it isn't loaded or any of its i-numbers has a digest.
    fn listing(&mut self, alloc: A, number: ChunkNumber) -> Result<Option<ListedChunk>, Memory>
        ensures listed { IfOk result (λ chunk. chunk ≡ listing_of self.old number) }
        ensures same { self.new ≡ self.old }
    {
        if let Some(chunk) = listed_at(&self.unloaded, number) {
            return Ok(Some(chunk));
        }
        if let Some(digest) = known_at(&self.known, number) {
            return Ok(Some(ListedChunk { number, digest }));
        }
        let Some(text) = self.chunk_text(alloc, number)? else {
            return Ok(None);
        };
        let digest = digest(&text);
        make_room(&mut self.known)?;
        set_known(&mut self.known, number, Some(digest));
        Ok(Some(ListedChunk { number, digest }))
    }

    /// The chunks as the root lists them. It hashes the chunks that changed since they were hashed last.
    pub fn listings(&mut self, alloc: A) -> Result<Vec<ListedChunk, A>, Memory>
        ensures listed { IfOk result (λ chunks. chunks.items ≡ listings_of self.old) }
        ensures same { self.new ≡ self.old }
    {
        let mut chunks = Vec::new(alloc);
        for number in 0..64 {
            if let Some(chunk) = self.listing(alloc, ChunkNumber::at(number))? {
                chunks.push(chunk)?;
            }
        }
        Ok(chunks)
    }

    /// The text of the root. It hashes the chunks that changed since they were hashed last.
    pub fn root_text(&mut self, alloc: A) -> Result<Vec<u8, A>, Memory>
        ensures text { IfOk result (λ text. text.items ≡ root.spell (root_of self.old)) }
        // It is read as the root, which lists exactly the chunks that aren't loaded or have a text.
        ensures reads { whole root (root.spell (root_of self.old)) ≡ Ok (root_of self.old) }
        ensures lists { (n : ℕ) → n < 64 → chunk_at (root_of self.old) n ≡ listing_of self.old n }
        ensures same { self.new ≡ self.old }
    {
        self.root_invariant();
        let chunks = self.listings(alloc)?;
        spelled_root(alloc, self.principal, &chunks)
    }

    /// The i-handle: the digest of the root's text.
    pub fn handle(&mut self, alloc: A) -> Result<Digest, Memory>
        ensures handle { IfOk result (λ handle. handle ≡ handle_of self.old) }
        // It is that of any table of this principal with the same digests where the same chunks are loaded, and of no
        // other whole one, unless texts collide.
        ensures known { IsKnownByDigests self.old }
        ensures knows { IsKnownByHandle self.old }
        ensures same { self.new ≡ self.old }
    {
        self.root_invariant();
        let text = self.root_text(alloc)?;
        Ok(digest(&text))
    }

    /// The text of a chunk, unless another table has this very text of it.
    fn new_chunk(
        &self,
        alloc: A,
        before: &ITable<A>,
        number: ChunkNumber,
    ) -> Result<Option<Vec<u8, A>>, Memory>
        ensures { IfOk result (λ text. option_map vec_items text ≡ new_chunk before.now self.now number) }
    {
        // It is below 64.
        let _number = number.get();
        if are_same(run_of(&before.pairs, number), run_of(&self.pairs, number)) {
            return Ok(None);
        }
        self.chunk_text(alloc, number)
    }

    /// The texts of the chunks of which another table hasn't this very text.
    fn new_chunks(&self, alloc: A, before: &ITable<A>) -> Result<Vec<Vec<u8, A>, A>, Memory>
        ensures { IfOk result (λ texts. map vec_items texts.items
            ≡ filter_map (new_chunk before.now self.now) (range_with_len 0 64)) }
    {
        let mut texts = Vec::new(alloc);
        for number in 0..64 {
            if let Some(text) = self.new_chunk(alloc, before, ChunkNumber::at(number))? {
                texts.push(text)?;
            }
        }
        Ok(texts)
    }

    /// The texts by which this table is stored: those of its loaded chunks, ascending, and that of its root. It hashes the
    /// chunks that changed since they were hashed last.
    pub fn texts(&mut self, alloc: A) -> Result<Vec<Vec<u8, A>, A>, Memory>
        ensures texts { IfOk result (λ texts. map vec_items texts.items ≡ texts_of self.old) }
        ensures same { self.new ≡ self.old }
    {
        let mut texts = self.new_chunks(alloc, &ITable::empty(alloc, self.principal))?;
        texts.push(self.root_text(alloc)?)?;
        Ok(texts)
    }

    /// The texts by which this table is stored and another one isn't: those of the loaded chunks that the other one
    /// hasn't, ascending, and that of the root, where the other's is another one. Texts are compared, and not their
    /// digests alone. It hashes the chunks that changed since they were hashed last.
    pub fn new_texts(
        &mut self,
        alloc: A,
        before: &mut ITable<A>,
    ) -> Result<Vec<Vec<u8, A>, A>, Memory>
        ensures texts { IfOk result (λ texts. map vec_items texts.items ≡ new_texts before.old self.old) }
        ensures same { self.new ≡ self.old }
        ensures before { before.new ≡ before.old }
    {
        let mut texts = self.new_chunks(alloc, before)?;
        let root = self.root_text(alloc)?;
        let stays = root == before.root_text(alloc)?;
        if !stays {
            texts.push(root)?;
        }
        Ok(texts)
    }
}

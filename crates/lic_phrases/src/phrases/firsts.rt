//! How many tokens a phrase has at most, by the text that it begins with.
ghost use Rattle.std.specs.Prelude.{◌≡◌, ◌<◌, ◌∷◌, ℕ, List, bytes_eq, length, min, slice_index, true, unwrap_or};
ghost use Rattle.indexmap.specs.IndexMap.{get_by};
ghost use Rattle.lic_trim.specs.PieceLengths.{has_bit};
ghost use Rattle.lic_phrases.specs.FirstTexts.{by_pair, may_have, pair_of, HasAll, HasAllByPair, HasOthers, HasSigns};

use indexmap::IndexMap;
use std::alloc::{AllocError, Global};

/// How many bytes there are.
const BYTES: usize = 256;

/// The bit of a mask that is for texts of 31 bytes and more.
const LONG: usize = 31;

/// The bits for texts of two bytes and more.
const TWO_AND_MORE: u32 = u32::MAX - 3;

/// For each text that begins a phrase, how many tokens such a phrase has at most.
#[derive(Drop)]
pub(crate) struct Firsts {
    most: IndexMap<Vec<u8>, usize>,
    /// A prefilter: for each first byte, how long the texts are that begin with it, a bit for each length. It has those of texts
    /// that begin a phrase, and those that are not plain.
    lengths: [u32; BYTES],
    /// The same for each number that a first and a last byte make: few other texts have both and the length. It has the bits
    /// of texts that begin a phrase, of `copyright` and of `https`.
    pairs: [u32; BYTES],
    ghost all: { HasAll lengths (λ text. unwrap_or (get_by (λ k. bytes_eq text k.items) most) 0) },
    ghost others: { HasOthers lengths },
    ghost all_pairs: { HasAllByPair pairs (λ text. unwrap_or (get_by (λ k. bytes_eq text k.items) most) 0) },
    ghost signs: { HasSigns pairs },
}

/// Whether there is a bit for the first byte of this text and its length.
#[inline(always)]
fn may_have(lengths: &[u32; BYTES], text: &[u8]) -> bool
    requires { 0 < length text.now }
    ensures { result ≡ may_have lengths.now text.now }
{
    (lengths[text[0] as usize] >> text.len().min(LONG)) & 1 == 1
}

/// Adds a bit for the first byte of this text and its length.
fn add(lengths: &mut [u32; BYTES], text: &[u8])
    ensures added { may_have lengths.new text.now ≡ true }
    ensures grows { (t : List ℕ) → may_have lengths.old t ≡ true → may_have lengths.new t ≡ true }
{
    if text.is_empty() {
        return;
    }
    lengths[text[0] as usize] |= 1 << text.len().min(LONG);
}

/// Whether there is a bit for texts of `len` bytes in the row of this number.
#[inline(always)]
fn has(table: &[u32; BYTES], row: u8, len: usize) -> bool
    ensures { result ≡ has_bit (slice_index table.now row) (min len 31) }
{
    (table[row as usize] >> len.min(LONG)) & 1 == 1
}

/// The number that the first and the last byte of a text make.
#[inline(always)]
fn pair_of(text: &[u8]) -> u8
    requires { 0 < length text.now }
    ensures { result ≡ pair_of text.now }
{
    let first = text[0];
    let last = text[text.len() - 1];
    first.wrapping_mul(8).wrapping_add(last)
}

/// Whether there is a bit for the first and the last byte of this text and its length.
#[inline(always)]
fn may_have_pair(pairs: &[u32; BYTES], text: &[u8]) -> bool
    requires { 0 < length text.now }
    ensures { result ≡ may_have pairs.now (by_pair text.now) }
{
    has(pairs, pair_of(text), text.len())
}

/// Adds a bit for the first and the last byte of this text and its length.
fn add_pair(pairs: &mut [u32; BYTES], text: &[u8])
    ensures added { may_have pairs.new (by_pair text.now) ≡ true }
    ensures grows { (t : List ℕ) → may_have pairs.old t ≡ true → may_have pairs.new t ≡ true }
{
    if text.is_empty() {
        return;
    }
    pairs[pair_of(text) as usize] |= 1 << text.len().min(LONG);
}

/// Adds all bits for a first byte but that of this byte alone.
fn add_longer(lengths: &mut [u32; BYTES], first: u8)
    ensures added { (next : ℕ) (rest : List ℕ) → may_have lengths.new (first ∷ next ∷ rest) ≡ true }
    ensures grows { (t : List ℕ) → may_have lengths.old t ≡ true → may_have lengths.new t ≡ true }
{
    lengths[first as usize] |= TWO_AND_MORE;
}

/// The prefilter where no text begins a phrase.
fn no_lengths() -> [u32; BYTES]
    ensures { HasOthers result }
{
    let mut lengths = [0; BYTES];
    add_longer(&mut lengths, b'\'');
    add_longer(&mut lengths, b'-');
    add(&mut lengths, b"(");
    add(&mut lengths, b"copyright");
    add(&mut lengths, b"https");
    lengths
}

/// The prefilter by first and last bytes where no text begins a phrase.
fn no_pairs() -> [u32; BYTES]
    ensures { HasSigns result }
{
    let mut pairs = [0; BYTES];
    add_pair(&mut pairs, b"copyright");
    add_pair(&mut pairs, b"https");
    pairs
}

impl Firsts {
    ghost use Rattle.std.specs.Prelude.{◌≤◌, IsTrue, OnOk, OnErr};
    ghost use Rattle.indexmap.specs.IndexMap.{IsUnchanged};
    ghost use Rattle.lic_phrases.specs.FirstTexts.{IsNoSign, IsPlain};
    ghost use Rattle.lic_phrases.specs.Firsts.{bound_from};
    ghost use Rattle.lic_phrases.specs.PhraseLists.{IsRaised};

    /// No text.
    pub(crate) fn new(alloc: Global) -> Firsts
        ensures { (text : List ℕ) → bound_from result text ≡ 0 }
    {
        Firsts {
            most: IndexMap::new(alloc),
            lengths: no_lengths(),
            pairs: no_pairs(),
        }
    }

    /// Raises the bound on how many tokens a phrase has that begins with this text. Lack of memory changes nothing.
    pub(crate) fn raise(
        &mut self,
        alloc: Global,
        text: &[u8],
        count: usize,
    ) -> Result<(), AllocError>
        requires { count ≤ 8 }
        ensures raised { OnOk result (IsRaised text.now count (bound_from self.old) (bound_from self.new)) }
        ensures err { OnErr result (IsUnchanged self.old.most self.new.most) }
    {
        let most = self.listed(text).max(count);
        let first = Vec::from_slice(alloc, text)?;
        self.most.insert(first, most)?;
        add(&mut self.lengths, text);
        add_pair(&mut self.pairs, text);
        Ok(())
    }

    /// How many tokens a phrase has at most that begins with this text.
    #[inline(never)]
    fn listed(&self, text: &[u8]) -> usize
        ensures { result ≡ bound_from self.now text.now }
    {
        self.most.get(text).copied().unwrap_or(0)
    }

    /// The same, where mostly a look into the tables has the answer.
    #[inline(always)]
    pub(crate) fn most_from(&self, text: &[u8]) -> usize
        ensures { result ≡ bound_from self.now text.now }
    {
        if self.most.is_empty() {
            return 0;
        }
        if !text.is_empty() && !may_have_pair(&self.pairs, text) {
            return 0;
        }
        self.listed(text)
    }

    /// Whether the prefilter alone says that this text is plain and begins no phrase.
    #[inline(always)]
    pub(crate) fn is_plain(&self, text: &[u8]) -> bool
        requires { 0 < length text.now }
        ensures plain { IsTrue result → IsPlain text.now }
        ensures none { IsTrue result → bound_from self.now text.now ≡ 0 }
    {
        !may_have(&self.lengths, text)
    }

    /// Whether the prefilter by first and last bytes alone says that this text is neither `copyright` nor `https` and begins no phrase.
    #[inline(always)]
    pub(crate) fn begins_none(&self, text: &[u8]) -> bool
        requires { 0 < length text.now }
        ensures no_sign { IsTrue result → IsNoSign text.now }
        ensures none { IsTrue result → bound_from self.now text.now ≡ 0 }
    {
        !may_have_pair(&self.pairs, text)
    }
}

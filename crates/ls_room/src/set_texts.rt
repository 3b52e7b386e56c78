// The names of sets, joined beforehand.
ghost use Rattle.std.specs.Prelude.{◌≡◌, ◌+◌, ◌-◌, ◌*◌, ◌<◌, ◌≤◌, ◌++◌, ◌∷◌, length, drop, take};
ghost use Rattle.std.specs.Prelude.{IfOk, OnOk};
ghost use Rattle.std.specs.List.{insert};
ghost use Rattle.ls_lists.specs.Lists.{spaced};
ghost use Rattle.ls_set.specs.{cursor, cursor_length, full, has, meet};
ghost use Rattle.ls_domain.specs.Domains.{IsDomain};
ghost use Rattle.ls_domain.specs.Texts.{joined_names, name_of, names_of_set, set_text};
ghost use Rattle.ls_meaning.specs.{line_bytes, set_line};
ghost use Rattle.ls_room.specs.Rooms.{Says};
ghost use Rattle.ls_room.specs.SetTexts.{group_items, group_text, group_texts, spaced_names};
ghost use Rattle.ls_room.specs.Names.{items_by_name, insert_by_name, quoted_name};

use crate::Room;
use crate::text_list::TextList;
use ls_domain::Domain;
use ls_edge::Sink;
use ls_set::{ItemSet, PLACES, cursor_length};
use std::alloc::{AllocError, Global};
use std::marker::Model;

// How many digits a cursor has at most.
const MOST_DIGITS: usize = (PLACES as usize + 3) / 4;

// The hexadecimal digits by their four bits turned round: the first item is the lowest bit of a
// pattern, and the highest of a digit.
const TURNED: [u8; 16] = *b"084c2a6e195d3b7f";

/// The names of a domain's items, joined beforehand: for each eight items, a group, the texts of
/// all its subsets, each name behind a space. So the names of a set are said by one text a group.
/// And the items in the order of the bytes of their names. Contracts see it as the list of names.
// The text of pattern `p` of group `g` is at index `256 * g + p`.
#[derive(Drop)]
pub struct SetTexts {
    domain: Domain,
    texts: TextList,
    by_name: Vec<u32>,
}

impl Model for SetTexts {
    ghost use Rattle.std.specs.Prelude.{List, ℕ, ◌≡◌};
    ghost use Rattle.ls_domain.specs.Domains.{IsDomain};
    ghost use Rattle.ls_room.specs.SetTexts.{group_texts};
    ghost use Rattle.ls_room.specs.Names.{items_by_name};

    ghost Value = { List (List ℕ) };

    ghost view = { λ t. t.domain };

    ghost invariant = { λ t. (t.texts ≡ group_texts t.domain)
        × (t.by_name.items ≡ items_by_name t.domain) × IsDomain t.domain };
}

impl SetTexts {
    /// The texts of the domain's sets. They take up to 2.7 million bytes, where each of 512 names
    /// has 40.
    pub fn new(alloc: Global, domain: Domain) -> Result<SetTexts, AllocError>
        ensures { IfOk result (λ t. t ≡ domain) }
    {
        let texts = texts_of(alloc, &domain)?;
        let by_name = items_by_name(alloc, &domain)?;
        Ok(SetTexts {
            domain,
            texts,
            by_name,
        })
    }

    /// The names themselves.
    pub fn domain(&self) -> &Domain
        ensures { result.now ≡ self.now }
    {
        &self.domain
    }

    /// The items in the order of the bytes of their names.
    pub fn by_name(&self) -> &[u32]
        ensures order { result.now ≡ items_by_name self.now }
        ensures domain { IsDomain self.now }
    {
        &self.by_name
    }

    /// Those of the items that the set has.
    pub fn items_of(&self, s: ItemSet) -> ItemSet
        ensures { result ≡ meet s (full (length self.now)) }
    {
        s.meet(ItemSet::full(self.domain.count()))
    }

    /// Says the name of an item in quotes.
    pub fn put_quoted<K: Sink>(&self, item: u32, room: &mut Room, out: &mut K)
        ensures { Says (K.written out.old) (K.faults out.old) room.old (K.written out.new)
            (K.faults out.new) room.new (quoted_name self.now item) }
    {
        room.put(b"\"", out);
        room.put(self.domain.name(item).as_bytes(), out);
        room.put(b"\"", out);
    }

    /// Says the names of the set's items, in the order of items, joined by single spaces.
    pub fn put_names<K: Sink>(&self, s: ItemSet, room: &mut Room, out: &mut K)
        ensures { Says (K.written out.old) (K.faults out.old) room.old (K.written out.new)
            (K.faults out.new) room.new (joined_names self.now s) }
    {
        self.put_spaced(s, 1, room, out);
    }

    /// Says a set, its names within braces, behind a space.
    pub fn put_set<K: Sink>(&self, s: ItemSet, room: &mut Room, out: &mut K)
        ensures { Says (K.written out.old) (K.faults out.old) room.old (K.written out.new)
            (K.faults out.new) room.new (32 ∷ set_text self.now s) }
    {
        room.put(b" {", out);
        self.put_names(s, room, out);
        room.put(b"}", out);
    }

    /// Says the names of the set's items, in the order of items, each behind a space, but for as
    /// many bytes as are to be skipped.
    pub fn put_spaced<K: Sink>(&self, s: ItemSet, skipped: usize, room: &mut Room, out: &mut K)
        ensures { Says (K.written out.old) (K.faults out.old) room.old (K.written out.new)
            (K.faults out.new) room.new (drop skipped (spaced (λ w. w) (names_of_set self.now s))) }
    {
        let mut left = skipped;
        for group in 0..self.domain.count().div_ceil(8) {
            left = self.put_group(s, group, left, room, out);
        }
    }

    /// Says the name of an item behind a space.
    pub fn put_name<K: Sink>(&self, item: u32, room: &mut Room, out: &mut K)
        ensures { Says (K.written out.old) (K.faults out.old) room.old (K.written out.new)
            (K.faults out.new) room.new (32 ∷ name_of self.now item) }
    {
        room.space(out);
        room.put(self.domain.name(item).as_bytes(), out);
    }

    /// The name of an item, which has one, behind a space.
    pub fn name_text(&self, item: u32) -> &[u8]
        requires { item < length self.now }
        ensures { result.now ≡ 32 ∷ name_of self.now item }
    {
        self.group_text(item / 8, 1 << (item % 8))
    }

    /// Says the line of a set: its cursor and its names.
    pub fn put_set_line<K: Sink>(&self, s: ItemSet, room: &mut Room, out: &mut K)
        ensures { Says (K.written out.old) (K.faults out.old) room.old (K.written out.new)
            (K.faults out.new) room.new (line_bytes (set_line self.now s)) }
    {
        let n = self.domain.count();
        let mut digits = [0u8; MOST_DIGITS];
        write_digits(s, n, &mut digits);
        room.put(b"set ", out);
        room.put_front(&digits, cursor_length(n), out);
        room.put(b" {", out);
        self.put_names(s, room, out);
        room.put(b"}\n", out);
    }

    // Says the names of the set's items that are in a group, each behind a space, but for the bytes
    // that are still to be skipped: the space before the first name. Answers how many are to be
    // skipped then.
    fn put_group<K: Sink>(
        &self,
        s: ItemSet,
        group: u32,
        skipped: usize,
        room: &mut Room,
        out: &mut K,
    ) -> usize
        requires group { 8 * group < length self.now }
        requires few { length self.now ≤ PLACES }
        ensures says { Says (K.written out.old) (K.faults out.old) room.old (K.written out.new)
            (K.faults out.new) room.new (drop skipped (spaced_names self.now (has s)
            (group_items (length self.now) group))) }
        ensures skipped { result ≡ skipped - length (spaced_names self.now (has s)
            (group_items (length self.now) group)) }
    {
        let pattern = s.group(group);
        if pattern == 0 {
            return skipped;
        }
        let (bytes, count) = self.group_from(group, pattern);
        let start = skipped.min(count);
        room.put_front(&bytes[start..], count - start, out);
        skipped - start
    }

    // The text of a pattern of a group.
    fn group_text(&self, group: u32, pattern: u8) -> &[u8]
        requires { 8 * group < length self.now }
        ensures { result.now ≡ group_text self.now group pattern }
    {
        let (bytes, count) = self.group_from(group, pattern);
        &bytes[..count]
    }

    // The bytes from the text of a pattern of a group on, and how many of them are that text.
    fn group_from(&self, group: u32, pattern: u8) -> (&[u8], usize)
        requires { 8 * group < length self.now }
        ensures text { take result.1 result.0.now ≡ group_text self.now group pattern }
        ensures within { result.1 ≤ length result.0.now }
    {
        self.texts.get_from(256 * group as usize + pattern as usize)
    }
}

// Writes the digits of the set's cursor among `n` items, two for each group.
fn write_digits(s: ItemSet, n: u32, digits: &mut [u8; MOST_DIGITS])
    requires { n ≤ PLACES }
    ensures { take (cursor_length n) digits.new ≡ cursor n s }
{
    for group in 0..n.div_ceil(8) {
        let pattern = s.group(group);
        let place = 2 * group as usize;
        digits[place] = TURNED[pattern as usize % 16];
        digits[place + 1] = TURNED[pattern as usize / 16];
    }
}

// The texts of all patterns of all groups.
fn texts_of(alloc: Global, domain: &Domain) -> Result<TextList, AllocError>
    ensures { IfOk result (λ t. t ≡ group_texts domain.now) }
{
    let mut texts = TextList::new(alloc);
    let mut text = Vec::new(alloc);
    for index in 0..256 * domain.count().div_ceil(8) {
        text.clear();
        push_group(domain, index / 256, index % 256, &mut text)?;
        texts.push(&text)?;
    }
    Ok(texts)
}

// Appends the text of a pattern of a group.
fn push_group(
    domain: &Domain,
    group: u32,
    pattern: u32,
    out: &mut Vec<u8>,
) -> Result<(), AllocError>
    requires { 8 * group < length domain.now }
    ensures { OnOk result (out.new.items ≡ out.old.items ++ group_text domain.now group pattern) }
{
    let count = domain.count();
    for item in 8 * group..count.min(8 * group + 8) {
        if pattern >> (item % 8) & 1 == 1 {
            push_spaced(domain.name(item), out)?;
        }
    }
    Ok(())
}

// Appends a name behind a space.
fn push_spaced(name: &str, out: &mut Vec<u8>) -> Result<(), AllocError>
    ensures { OnOk result (out.new.items ≡ out.old.items ++ 32 ∷ name.now) }
{
    out.push(b' ')?;
    out.extend_from_slice(name.as_bytes())
}

// The items in the order of the bytes of their names, which are those of a domain.
fn items_by_name(alloc: Global, domain: &Domain) -> Result<Vec<u32>, AllocError>
    ensures order { IfOk result (λ v. v.items ≡ items_by_name domain.now) }
    ensures domain { OnOk result (IsDomain domain.now) }
{
    let count = domain.count();
    let mut order = Vec::with_capacity(alloc, count as usize)?;
    for item in (0..count).rev() {
        let place = place_by_name(domain, item, &order);
        order.insert(place, item)?;
    }
    Ok(order)
}

// Where an item stands among others that are in the order of their names.
fn place_by_name(domain: &Domain, item: u32, order: &[u32]) -> usize
    ensures within { result ≤ length order.now }
    ensures place { insert order.now result item ≡ insert_by_name domain.now item order.now }
{
    let name = domain.name(item);
    for (place, other) in order.iter().enumerate() {
        if name < domain.name(*other) {
            return place;
        }
    }
    order.len()
}

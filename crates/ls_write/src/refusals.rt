// The lines of refusals.
ghost use Rattle.std.specs.Prelude.{◌∷◌, codes, option_copied};
ghost use Rattle.ls_lists.specs.Lists.{spaced};
ghost use Rattle.ls_meaning.specs.{detail_of, detail_word, line_of, refusal_words};
ghost use Rattle.ls_room.specs.Rooms.{Says};
ghost use Rattle.ls_room.specs.SetTexts.{names_in};

use ls_edge::Sink;
use ls_meaning::{Detail, Refusal};
use ls_room::{Room, SetTexts};

/// Says the line of a refusal: its code and its details. `texts` has the names of the items, where
/// a domain stands.
pub fn put_refusal<K: Sink>(
    texts: Option<&SetTexts>,
    refusal: &Refusal,
    room: &mut Room,
    out: &mut K,
)
    ensures { Says (K.written out.old) (K.faults out.old) room.old
        (K.written out.new) (K.faults out.new) room.new
        (line_of (codes "no" ∷ refusal_words (names_in (option_copied texts.entry)) refusal.now)) }
{
    let notice = refusal.notice();
    room.put(b"no ", out);
    room.put_number(notice.code, out);
    put_details(texts, notice.details.as_slice(), room, out);
    room.end_line(out);
}

// Says details, each behind a space.
fn put_details<K: Sink>(texts: Option<&SetTexts>, details: &[Detail], room: &mut Room, out: &mut K)
    ensures { let names = names_in (option_copied texts.entry) in
        Says (K.written out.old) (K.faults out.old) room.old
        (K.written out.new) (K.faults out.new) room.new
        (spaced (λ d. detail_word names (detail_of d)) details.now) }
{
    for detail in details {
        put_detail(texts, detail, room, out);
    }
}

// Says a detail behind a space.
fn put_detail<K: Sink>(texts: Option<&SetTexts>, detail: &Detail, room: &mut Room, out: &mut K)
    ensures { Says (K.written out.old) (K.faults out.old) room.old
        (K.written out.new) (K.faults out.new) room.new
        (32 ∷ detail_word (names_in (option_copied texts.entry)) (detail_of detail.now)) }
{
    match detail {
        Detail::Word(word) => {
            room.space(out);
            room.put(word.as_bytes(), out);
        }
        Detail::Number(number) => {
            room.space(out);
            room.put_number(*number, out);
        }
        Detail::Item(item) => match texts {
            Some(texts) => texts.put_name(*item, room, out),
            None => room.space(out),
        },
        Detail::Set(set) => match texts {
            Some(texts) => texts.put_set(*set, room, out),
            None => room.put(b" {}", out),
        },
    }
}

// Pages of learning paths, said.
ghost use Rattle.std.specs.Prelude.{◌≡◌, true, length};
ghost use Rattle.std.specs.Option.{ForSome};
ghost use Rattle.ls_set.specs.{full};
ghost use Rattle.ls_theory.specs.{is_learning_space, is_lex_before, is_order, page, paths};
ghost use Rattle.ls_paths.specs.Left.{paths_left};
ghost use Rattle.ls_meaning.specs.{lines_bytes, path_lines};
ghost use Rattle.ls_room.specs.Rooms.{Says};
ghost use Rattle.ls_write.specs.Paths.{paths_after};

use crate::path_text::{PathText, put_path};
use ls_edge::Sink;
use ls_interior::Inside;
use ls_paths::{Order, Walk};
use ls_room::{Room, SetTexts, put_more};
use ls_set::{ItemList, PLACES};

// The walk over the paths after an order of all items, or over all of them.
fn walk_after<'a, F: Inside>(f: &'a F, after: &Option<ItemList>) -> Walk<'a, F>
    requires learning { is_learning_space (full (F.item_count f.now)) (F.members f.now) ≡ true }
    requires after { ForSome after.now (λ o. is_order (F.item_count f.now) o ≡ true) }
    ensures family { result.family.now ≡ f.now }
    ensures left { paths_left (F.item_count f.now) (F.members f.now) result.has_path result.order
        ≡ paths_after (F.item_count f.now) (F.members f.now) after.now }
{
    let n = f.items();
    let Some(items) = after else {
        return Walk::from_start(f);
    };
    match Order::from_items(n, items.as_slice()) {
        Some(order) => Walk::from_order(f, &order),
        None => unreachable!(),
    }
}

/// Says the lines of the first `count` learning paths that come after an order of all items, or of
/// the first of all, and whether a further one follows. After a fault of the sink no more paths are
/// looked for.
pub fn put_paths<F: Inside, K: Sink>(
    f: &F,
    texts: &SetTexts,
    after: &Option<ItemList>,
    count: u32,
    room: &mut Room,
    out: &mut K,
)
    requires items { F.item_count f.now ≡ length texts.now }
    requires learning { is_learning_space (full (F.item_count f.now)) (F.members f.now) ≡ true }
    requires after { ForSome after.now (λ o. is_order (F.item_count f.now) o ≡ true) }
    ensures { Says (K.written out.old) (K.faults out.old) room.old (K.written out.new)
        (K.faults out.new) room.new (lines_bytes (path_lines texts.now
        (page is_lex_before (paths (F.item_count f.now) (F.members f.now)) after.now count))) }
{
    let mut walk = walk_after(f, after);
    let mut shared = PathText::new();
    for _done in 0..count {
        if room.has_failed() {
            return;
        }
        let Some(path) = walk.path() else {
            put_more(false, room, out);
            return;
        };
        put_path(texts, path, &mut shared, room, out);
        walk.advance();
    }
    put_more(walk.path().is_some(), room, out);
}

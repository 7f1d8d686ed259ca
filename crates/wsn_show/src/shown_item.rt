ghost use Rattle.std.specs.Prelude.{◌≡◌, [], ◌∷◌};
ghost use Rattle.wsn_rules.specs.ShownStream.{Item};
ghost use Rattle.wsn_shown_text.specs.ShownItems.{IsItem};
ghost use Rattle.wsn_show.specs.ShownItems.{Prints, held_view, items_of_begun};
ghost use Rattle.wsn_show.specs.Styles.{item_view};

use crate::entry_context::EntryContext;
use std::io::Write;
use wsn_io::Output;
use wsn_print::{EntryFront, Format, ViewLimit};
use wsn_rules::{Detail, HeadInfo};
pub use wsn_shown_text::ShownItem;
use wsn_shown_text::put_entry;

/// Prints the item at this offset, unless a write has failed.
#[tactic(none)]
pub fn put_item<W: Write>(
    output: &mut Output<W>,
    context: &EntryContext<'_>,
    offset: u64,
    item: &ShownItem<'_>,
)
    ensures { (shown : Item) → IsItem (item_view context.now.style.view shown) offset item.now shown →
        Prints context.now output.old output.new (shown ∷ []) }
{
    if output.failed() {
        return;
    }
    let front = EntryFront {
        role: context.role,
        origin: context.origin,
        offset,
    };
    let view = view_of_item(context.style.view, item);
    // Each format has a call of its own, so that the compiler makes code for it alone.
    let _stop = match context.style.format {
        Format::Text => put_entry(output, Format::Text, view, &front, item),
        Format::People => put_entry(output, Format::People, view, &front, item),
        Format::Json => put_entry(output, Format::Json, view, &front, item),
    };
}

/// The limit with which an item is shown: of an event the limit on payloads; of anything else at most 4,096 bytes.
#[inline(always)]
fn view_of_item(view: ViewLimit, item: &ShownItem<'_>) -> ViewLimit
    ensures { result ≡ held_view view item.now }
{
    match item {
        ShownItem::Event(_)
        | ShownItem::Frame(_)
        | ShownItem::Unfinished(_, _)
        | ShownItem::UnfinishedHead => view,
        ShownItem::Refused(_, _, _) | ShownItem::Remainder(_, _) => view.short(),
    }
}

/// Prints the frame with this head, which is complete, if frames are shown by their heads.
#[tactic(none)]
pub fn put_begun<W: Write>(output: &mut Output<W>, context: &EntryContext<'_>, head: &HeadInfo)
    ensures { Prints context.now output.old output.new (items_of_begun context.now.style.detail head.now) }
{
    match context.style.detail {
        Detail::Events => {}
        Detail::Frames => put_item(output, context, head.offset, &ShownItem::Frame(*head)),
    }
}

//! Connections, answered in sequence.

ghost use Rattle.std.specs.Prelude.{◌≡◌, false, All};
ghost use Rattle.tacho_state.specs.State.{State};
ghost use Rattle.tacho_desk.specs.Doing.{Kept};
ghost use Rattle.tacho_http.specs.Pages.{ReactsOrGives};
ghost use Rattle.tacho_http.specs.Run.{Run, Went, WentKept};
ghost use Rattle.tacho_http.specs.Serve.{Reacts};

use crate::exchange::answer_or_page;
use crate::places::Routes;
use std::alloc::Global;
use tacho_message::PageFile;
use tacho_state::Keeper;
use tacho_time::{Sink, Source};

/// Answers connections in order, and returns how many ended without a fault of their reader or writer. Continues after such a fault.
pub fn answer_all<K: Keeper, R: Source, W: Sink>(
    alloc: Global,
    keeper: &mut K,
    office_key: &[u8],
    connections: &mut [(R, W)],
) -> usize
    requires { All (λ c. (R.has_failed c.0 ≡ false) × (W.has_failed c.1 ≡ false)) connections.old }
    ensures clean { K.is_clean keeper.new → K.is_clean keeper.old }
    ensures run { K.is_clean keeper.new → (s : State) → K.stands keeper.old s → (t : State) × K.stands keeper.new t × Run
        (λ c d. Went (Reacts office_key.now) (R.unread c.0) (W.written c.1) (W.written d.1) (R.has_failed d.0) (W.has_failed d.1))
        connections.old connections.new result s t }
    // Likewise with the states that a crash may leave: after each connection those before and after it, and after a command that was done
    // only the state after it.
    ensures crash { K.is_clean keeper.new → (a : Kept) → K.stands keeper.old a.state → K.leaves keeper.old a.past
        → (b : Kept) × K.stands keeper.new b.state × K.leaves keeper.new b.past × Run
        (λ c d. WentKept (Reacts office_key.now) (R.unread c.0) (W.written c.1) (W.written d.1) (R.has_failed d.0) (W.has_failed d.1))
        connections.old connections.new result a b }
{
    answer_all_or_pages(alloc, &[], keeper, office_key, connections)
}

/// Answers connections in order as `answer_all` does, those that ask for page files too.
pub fn answer_all_or_pages<K: Keeper, R: Source, W: Sink>(
    alloc: Global,
    files: &[PageFile],
    keeper: &mut K,
    office_key: &[u8],
    connections: &mut [(R, W)],
) -> usize
    requires { All (λ c. (R.has_failed c.0 ≡ false) × (W.has_failed c.1 ≡ false)) connections.old }
    ensures clean { K.is_clean keeper.new → K.is_clean keeper.old }
    ensures run { K.is_clean keeper.new → (s : State) → K.stands keeper.old s → (t : State) × K.stands keeper.new t × Run
        (λ c d. Went (ReactsOrGives files.now office_key.now) (R.unread c.0) (W.written c.1) (W.written d.1) (R.has_failed d.0) (W.has_failed d.1))
        connections.old connections.new result s t }
    ensures crash { K.is_clean keeper.new → (a : Kept) → K.stands keeper.old a.state → K.leaves keeper.old a.past
        → (b : Kept) × K.stands keeper.new b.state × K.leaves keeper.new b.past × Run
        (λ c d. WentKept (ReactsOrGives files.now office_key.now) (R.unread c.0) (W.written c.1) (W.written d.1) (R.has_failed d.0) (W.has_failed d.1))
        connections.old connections.new result a b }
{
    let routes = Routes::new(alloc).ok();
    let mut count = 0;
    for (reader, writer) in connections.iter_mut() {
        let served = answer_or_page(
            alloc,
            files,
            routes.as_ref(),
            keeper,
            office_key,
            reader,
            writer,
        );
        count += usize::from(served.is_ok());
    }
    count
}

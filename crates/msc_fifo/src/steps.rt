//! The steps on the words of a queue. Each is one atomic call; none waits, and none is tried again.

ghost use Rattle.std.specs.Prelude.{◌≡◌, ◌+◌, ◌-◌, ◌<◌, ◌≤◌, [], ◌∷◌, ◌++◌, ℕ, true, false, None};
ghost use Rattle.std.specs.Prelude.{Some, length, MatchOption};
ghost use Rattle.msc_fifo.specs.declared.rule.Sender.{Sender};
ghost use Rattle.msc_fifo.specs.Claims.{is_message};
ghost use Rattle.msc_fifo.specs.World.{IsSmall, code};
ghost use Rattle.msc_fifo.specs.Views.{IsTicketOf, beside, knows, new_sender, receives};
ghost use Rattle.msc_fifo.specs.Views.{outlet_view};
ghost use Rattle.msc_fifo.specs.declared.claim.Claim.{Claim};
ghost use Rattle.msc_fifo.specs.Settlement.{place_of};
ghost use Rattle.msc_fifo.specs.Moves.{IsClaimOf, Makes, MayClaim, Takes, Told, after_mark};
ghost use Rattle.msc_fifo.specs.Moves.{after_put};

use crate::entry::Entry;
use crate::places::Place;
use crate::rule::{
    Claims, Dates, Due, Learns, Looks, NextSender, Offers, ReadsClock, ReadsEntry, Row, Said,
    Settles, Shows, Stores, TakesIn, Ticket,
};

/// Makes the offer, claims the next place for the message, and stores the clock of the place and
/// the message there. Returns the place and its clock.
pub fn put<W: Said>(row: &Row, ticket: &mut Ticket, entry: Entry, offer: u64) -> (u64, u64)
    requires said { W.item ≡ entry }
    requires seat { IsTicketOf row.now ticket.old }
    requires rest { MayClaim row.now.shared.key (knows ticket.old) entry }
    requires message { is_message entry ≡ true }
    requires small { IsSmall entry }
    ensures seat { IsTicketOf row.now ticket.new }
    ensures view { Makes row.now.shared.key (after_put entry offer result.0 result.1)
        (knows ticket.old) (knows ticket.new) }
    ensures above { offer ≤ result.1 }
    ensures place { result.0 < row.now.shared.key }
{
    row.shared.fetch_max::<Offers>(ticket, 1, offer);
    let place = row.shared.fetch_add::<Claims<W>>(ticket, 0, 1);
    let clock = row.shared.load::<Dates>(ticket, 1);
    let at = place as usize;
    row.shared.store::<Shows>(ticket, at + at + 3, clock);
    row.shared
        .store::<Stores>(ticket, at + at + 2, code_of(entry));
    (place, clock)
}

/// Claims the next place for the end mark, and stores it there. Returns the place.
pub fn put_mark<W: Said>(row: &Row, ticket: &mut Ticket, entry: Entry) -> u64
    requires said { W.item ≡ entry }
    requires seat { IsTicketOf row.now ticket.old }
    requires rest { MayClaim row.now.shared.key (knows ticket.old) entry }
    requires mark { is_message entry ≡ false }
    requires small { IsSmall entry }
    ensures seat { IsTicketOf row.now ticket.new }
    ensures view { Makes row.now.shared.key (after_mark entry result)
        (knows ticket.old) (knows ticket.new) }
    ensures place { result < row.now.shared.key }
{
    let mark = row.shared.fetch_add::<Claims<W>>(ticket, 0, 1);
    let at = mark as usize;
    row.shared
        .store::<Stores>(ticket, at + at + 2, code_of(entry));
    mark
}

/// The entry at the next place, if there is one.
pub fn look(row: &Row, ticket: &mut Ticket, place: usize) -> Option<Entry>
    requires seat { IsTicketOf row.now ticket.old }
    requires inlet { ((knows ticket.old).gets ≡ true)
        × ((knows ticket.old).places ≡ row.now.shared.key) }
    requires next { (length (knows ticket.old).got ≡ place)
        × (length (knows ticket.old).clocks ≡ place) }
    requires fits { place < row.now.shared.key }
    ensures seat { IsTicketOf row.now ticket.new }
    ensures view { MatchOption result (knows ticket.new ≡ knows ticket.old)
        (λ e. Takes (knows ticket.old) e (knows ticket.new)) }
{
    entry_of(row.shared.load::<Looks>(ticket, place + place + 2))
}

/// The clock of the place whose message was taken.
pub fn learn(row: &Row, ticket: &mut Ticket, place: usize) -> u64
    requires seat { IsTicketOf row.now ticket.old }
    requires inlet { ((knows ticket.old).gets ≡ true)
        × ((knows ticket.old).places ≡ row.now.shared.key) }
    requires next { (length (knows ticket.old).clocks ≡ place)
        × (length (knows ticket.old).clocks < length (knows ticket.old).got) }
    requires fits { place < row.now.shared.key }
    ensures seat { IsTicketOf row.now ticket.new }
    ensures view { knows ticket.new ≡ record (knows ticket.old) {
      clocks = (knows ticket.old).clocks ++ result ∷ [];
    } }
{
    row.shared.load::<Learns>(ticket, place + place + 3)
}

/// The ticket of the next sender.
pub fn deal<D: Due>(row: &Row, ticket: &mut Ticket) -> Ticket
    requires seat { IsTicketOf row.now ticket.old }
    requires inlet { ((knows ticket.old).gets ≡ true) × ((knows ticket.old).senders ≡ []) }
    requires enough { D.room ≤ (knows ticket.old).room }
    ensures seat { IsTicketOf row.now ticket.new }
    ensures own { IsTicketOf row.now result }
    ensures view { knows ticket.new ≡ receives (knows ticket.old).places
        ((knows ticket.old).room - D.room) ((knows ticket.old).made + 1)
        (knows ticket.old).got (knows ticket.old).clocks }
    ensures next { knows result ≡ outlet_view D.room
        (new_sender (knows ticket.old).places (knows ticket.old).made) }
{
    row.shared.split_seat::<NextSender<D>>(ticket)
}

/// Takes in the knowledge of an outlet's ticket.
pub fn join(row: &Row, ticket: &mut Ticket, own: Ticket)
    requires seat { IsTicketOf row.now ticket.old }
    requires own { IsTicketOf row.now own }
    requires inlet { (knows ticket.old).gets ≡ true }
    requires outlet { (room : ℕ) × (x : Sender) × (knows own ≡ outlet_view room x) }
    ensures seat { IsTicketOf row.now ticket.new }
    ensures view { knows ticket.new ≡ beside (knows ticket.old) (knows own) }
{
    row.shared.join_seat::<TakesIn>(ticket, own);
}

/// The number of places that were claimed.
pub fn count(row: &Row, ticket: &mut Ticket) -> u64
    requires seat { IsTicketOf row.now ticket.old }
    requires inlet { (knows ticket.old).gets ≡ true }
    ensures seat { IsTicketOf row.now ticket.new }
    ensures same { knows ticket.new ≡ knows ticket.old }
    ensures told { Told (knows ticket.old) result }
{
    row.shared.load::<Settles>(ticket, 0)
}

/// The entry and the clock of a place that was claimed, after the outlets' tickets were taken in.
pub fn read(row: &Row, ticket: &mut Ticket, place: usize) -> Place
    requires seat { IsTicketOf row.now ticket.old }
    requires inlet { (knows ticket.old).gets ≡ true }
    requires fits { place < row.now.shared.key }
    ensures seat { IsTicketOf row.now ticket.new }
    ensures same { knows ticket.new ≡ knows ticket.old }
    ensures place { (c : Claim) → IsClaimOf c (knows ticket.old).senders → c.place ≡ place
        → result ≡ place_of c }
{
    let entry = entry_of(row.shared.load::<ReadsEntry>(ticket, place + place + 2));
    let clock = row.shared.load::<ReadsClock>(ticket, place + place + 3);
    Place::of(entry, clock)
}

/// The word of an entry: 2(2^32 i + m) + 1 for message m of sender i, and 2(i + 1) for its end
/// mark.
fn code_of(entry: Entry) -> u64
    requires { IsSmall entry }
    ensures { result ≡ code entry }
{
    match entry {
        Entry::Message(sender, m) => 1 + 2 * (u64::from(sender) * 4294967296 + u64::from(m)),
        Entry::Ended(sender) => 2 * (u64::from(sender) + 1),
    }
}

/// The entry of a word; none if the word is 0.
fn entry_of(word: u64) -> Option<Entry>
    ensures none { word ≡ 0 → result ≡ None }
    ensures some { (e : Entry) → IsSmall e → word ≡ code e → result ≡ Some e }
{
    if word == 0 {
        return None;
    }
    let half = word / 2;
    if word % 2 == 1 {
        let m = half % 4294967296;
        let sender = half / 4294967296;
        Some(Entry::Message(sender as u32, m as u32))
    } else {
        u32::try_from(half - 1).ok().map(Entry::Ended)
    }
}

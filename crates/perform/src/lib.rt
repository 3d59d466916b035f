// Performs any list of calls that is given as bytes (specs/Encoding), from a fresh session.
#![tactic(auto)]

pub mod encoded;

ghost use Rattle.std.specs.Prelude.{◌≡◌, List};
ghost use Rattle.session.specs.Promise.{Reply, Done};
ghost use Rattle.history.specs.Histories.{Event, Run, calls, fresh_session};
ghost use Rattle.perform.specs.Encoding.{call_of, decoded};

use application_stage::application;
use complete_stage::complete::complete;
use complete_stage::update::update;
use early_stage::early;
use encoded::{Header, is_whole, read_header};
use feeding::feed;
use finished::binder::binder;
use finished::check::check;
use finished::finished::finished;
use handshake_stage::handshake;
use opening_stage::begin;
use outputs::export::export;
use outputs::keys::keys;
use session::close::close;
use session::{Session, fresh};

// Makes the call of a header, whose kind is the number of `call_of`, with Close for every other: a list is any bytes.
fn perform_one(s: Session, h: Header, first: &[u8], second: &[u8], out: &mut [u8]) -> Session
    ensures { (given : Reply) × Done s (call_of h.kind h.small h.wide h.asked first.now second.now out.old) result given }
{
    let kind = h.kind;
    match kind {
        1 => begin(s, h.wide, h.small, first).unwrap_or(s),
        2 => feed(s, first).unwrap_or(s),
        3 => early(s).unwrap_or(s),
        4 => handshake(s, h.wide, first).unwrap_or(s),
        5 => application(s).unwrap_or(s),
        6 => complete(s).unwrap_or(s),
        7 => update(s, h.small).unwrap_or(s),
        9 => {
            let _ = keys(s, h.small, out);
            s
        }
        10 => {
            let _ = finished(s, h.small, out);
            s
        }
        11 => {
            let _ = check(s, h.small, first);
            s
        }
        12 => {
            let _ = binder(s, first, out);
            s
        }
        13 => {
            let _ = export(s, h.small, first, second, h.asked, out);
            s
        }
        _ => close(s).0,
    }
}

// The session after the listed calls: each is made once, in order, on the session that the last one left.
pub fn perform(list: &[u8], lent: &mut [u8]) -> Session
    ensures { (events : List Event) × (calls events ≡ decoded list.now lent.old) × Run fresh_session events result }
{
    let mut s = fresh();
    let mut at: usize = 0;
    let mut used: usize = 0;
    // a `while`, since each step is as long as its record says (decoded_from)
    while at < list.len() {
        let h = read_header(list, at);
        if !is_whole(h, list.len(), lent.len(), at, used) {
            return s;
        }
        let start = at + 20;
        let middle = start + h.first;
        let end = middle + h.second;
        let filled = used + h.room;
        let next = perform_one(
            s,
            h,
            &list[start..middle],
            &list[middle..end],
            &mut lent[used..filled],
        );
        s = next;
        at = end;
        used = filled;
    }
    s
}

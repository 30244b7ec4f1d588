// Next, many events for one call, and a copy of a unit's bytes.
ghost use Rattle.std.specs.Prelude.{◌≡◌};
ghost use Rattle.state.specs.Words.{state_in};
ghost use Rattle.calls.specs.Events.{next_call, events_call};
ghost use Rattle.calls.specs.Show.{show_call};
ghost use Rattle.calls.specs.Words.{NextDone, EventsDone};

use crate::answer::{answered, counted};

// The next event, as a record. Refused with 90, 92 or 22.
#[unsafe(no_mangle)]
pub extern "C" fn ixohuemil_next(
    state: &mut [u64],
    packet: &[u8],
    collecting: &mut [u8],
    event: &mut [u64],
) -> u8
    ensures { NextDone state.old collecting.old event.old
        result state.new collecting.new event.new
        (next_call (state_in state.old) packet.now collecting.old event.old) }
{
    answered(calls::events::next_record(state, packet, collecting, event))
}

// Many events, as records one after the other, up to a joined unit; how many, in `count`. Refused with 90, 92 or 22.
#[unsafe(no_mangle)]
pub extern "C" fn ixohuemil_events(
    state: &mut [u64],
    packet: &[u8],
    collecting: &mut [u8],
    events: &mut [u64],
    count: &mut u64,
) -> u8
    ensures { EventsDone state.old collecting.old events.old count.old
        result state.new collecting.new events.new count.new
        (events_call (state_in state.old) packet.now collecting.old events.old count.old) }
{
    let given = calls::events::events(state, packet, collecting, events);
    counted(given, count)
}

// A copy of the bytes of a unit that an event has, at the front of `output`; how many, in `len`. Refused with 92 or 93.
#[unsafe(no_mangle)]
pub extern "C" fn ixohuemil_show(
    packet: &[u8],
    collecting: &[u8],
    event: &[u64],
    output: &mut [u8],
    len: &mut u64,
) -> u8
    ensures { (result, len.new, output.new)
        ≡ show_call packet.now collecting.now event.now output.old len.old }
{
    let shown = calls::show::copy_unit(packet, collecting, event, output);
    counted(shown, len)
}

// Start, frame, lost frame, slot and lost slot.
ghost use Rattle.std.specs.Prelude.{◌≡◌, [], length};
ghost use Rattle.state.specs.Words.{state_in, Starts, Leaves};
ghost use Rattle.frames.specs.Frame.{frame_of, lost_frame_of};
ghost use Rattle.frames.specs.Slot.{slot_of, lost_slot_of};
ghost use Rattle.calls.specs.Settings.{start_by};

use crate::answer::answered;

// A fresh receiver. Refused with 90, 91 or 1 to 4.
#[unsafe(no_mangle)]
pub extern "C" fn ixohuemil_start(settings: &[u64], state: &mut [u64]) -> u8
    ensures { Starts state.old result state.new (start_by (state_in state.old) settings.now) }
{
    answered(calls::settings::start_by(settings, state))
}

// The control block of a frame whose 120 slots follow. Refused with 90 or 10 to 14.
#[unsafe(no_mangle)]
pub extern "C" fn ixohuemil_frame(state: &mut [u64], block: &[u8]) -> u8
    ensures { Leaves state.old [] result state.new [] (frame_of (state_in state.old) block.now, []) }
{
    answered(frames::frame::frame(state, block))
}

// A lost frame. Refused with 90 or 11.
#[unsafe(no_mangle)]
pub extern "C" fn ixohuemil_lost_frame(state: &mut [u64]) -> u8
    ensures { Leaves state.old [] result state.new [] (lost_frame_of (state_in state.old), []) }
{
    answered(frames::frame::lost_frame(state))
}

// The slot that is due, with its data. Refused with 90 or 20 to 23.
#[unsafe(no_mangle)]
pub extern "C" fn ixohuemil_slot(
    state: &mut [u64],
    packet: &mut [u8],
    collecting: &[u8],
    data: &[u8],
) -> u8
    ensures { Leaves state.old packet.old result state.new packet.new
        (slot_of (state_in state.old) packet.old collecting.now «data».now) }
{
    answered(frames::slot::slot(state, packet, collecting, data))
}

// The slot that is due, lost. Refused with 90 or 20 to 22.
#[unsafe(no_mangle)]
pub extern "C" fn ixohuemil_lost_slot(state: &mut [u64], packet: &[u8], collecting: &[u8]) -> u8
    ensures { Leaves state.old [] result state.new []
        (lost_slot_of (state_in state.old) (length packet.now) (length collecting.now), []) }
{
    answered(frames::slot::lost_slot(state, packet, collecting))
}

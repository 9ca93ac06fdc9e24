//! What each call says of the state that it gives back: its entry in the history.
use crate::call::Call;
use crate::entry::Status;
use crate::handle::Handle;
use crate::state::HallState;
use ap_text::{AssetId, Platform};
use ap_turn::Says;

/// The products of the state were published, with this serial.
#[derive(Drop)]
pub(crate) struct SaysPublish(pub(crate) u64);

impl Says<HallState> for SaysPublish {
    ghost use Rattle.ap_handles.specs.declared.call.Call.TheVariants as call;

    ghost entry = { λ says state. call.Publish state.machine.entries says.0 };
}

/// The product of a platform and an id was looked up, and this handle was given.
#[derive(Drop)]
pub(crate) struct SaysAcquire<'a> {
    pub(crate) platform: &'a Platform,
    pub(crate) id: AssetId,
    pub(crate) handle: &'a Option<Handle>,
}

impl<'a> Says<HallState> for SaysAcquire<'a> {
    ghost use Rattle.ap_handles.specs.Calls.{entry_of};
    ghost use Rattle.ap_handles.specs.declared.call.Call.TheVariants as call;

    ghost entry = { λ says _. call.Acquire says.platform.now says.id (entry_of says.handle.now) };
}

/// The handle of this place was released.
#[derive(Drop)]
pub(crate) struct SaysRelease(pub(crate) u64);

impl Says<HallState> for SaysRelease {
    ghost use Rattle.ap_handles.specs.declared.call.Call.TheVariants as call;

    ghost entry = { λ says _. call.Release says.0 };
}

/// A scan was asked for, and this is how many were.
#[derive(Drop)]
pub(crate) struct SaysAsk(pub(crate) u64);

impl Says<HallState> for SaysAsk {
    ghost use Rattle.ap_handles.specs.declared.call.Call.TheVariants as call;

    ghost entry = { λ says _. call.Ask says.0 };
}

/// This status was told.
#[derive(Drop)]
pub(crate) struct SaysStatus(pub(crate) Status);

impl Says<HallState> for SaysStatus {
    ghost use Rattle.ap_handles.specs.declared.call.Call.TheVariants as call;

    ghost entry = { λ says _. call.Status says.0 };
}

/// The call met want of memory.
#[derive(Drop)]
pub(crate) struct SaysSkip;

impl Says<HallState> for SaysSkip {
    ghost use Rattle.ap_handles.specs.declared.call.Call.TheVariants as call;

    ghost entry = { λ _ _. call.Skip };
}

// 5 of a message without gaps, by its rows with labels alone: its every bit is a signal's, so that 6 is never given.
ghost use Rattle.std.specs.Prelude.{◌≡◌, false};
ghost use Rattle.page_search.specs.page_table.specs.Table.{rows_of};
ghost use Rattle.page_read.specs.Steps.{offence_of, judged_by, has_gaps};

use crate::signals::offence_at;
use page_search::page_rows::{
    CE_STATE, COMMUNICATION_PROTOCOL, CONTROLLER_STATE, CP_STATE, FINISHED_STATE, ID_STATE,
    LOWER_OUTPUT_VOLTAGE, OLD_CE_STATE, OLD_COMMUNICATION_PROTOCOL, OLD_CONTROLLER_STATE,
    OLD_CP_STATE, OLD_FINISHED_STATE, OLD_ID_STATE, OLD_PLUG_AND_PINS, OLD_STOP_ORIGIN,
    OLD_SYSTEM_ENABLE, OLD_VEHICLE_READY_FOR_CHARGING, OUTPUT_CONTACTORS, PLUG_AND_PINS,
    POWER_FUNCTION, SETPOINTS_MODE, STOP_ORIGIN, SYSTEM_ENABLE, VEHICLE_READY_FOR_CHARGING,
};
use page_search::page_table::{newer_kinds, older_kinds};
use refusals::Refusal;

// The kinds with a bit that no signal covers: the three of 004, and of either document Sequence_Control and ADM_CS_SPCC_Inputs.
pub fn has_gaps(kind: usize) -> bool
    ensures { result ≡ has_gaps kind }
{
    matches!(
        kind,
        newer_kinds::SAFETY_CONTROL
            | newer_kinds::SAFETY_STATE
            | newer_kinds::PROBES
            | older_kinds::SEQUENCE
            | older_kinds::SPCC
            | newer_kinds::SEQUENCE
            | newer_kinds::SPCC
    )
}

// The rows with labels, by their names: of a row that is known the compiler leaves one test, and a walk over all rows of the message costs a jump for each.
// A kind with gaps, which is not asked for, and a number that is no kind are as a kind without labels.
fn offence(kind: usize, n: u64) -> Option<u8>
    requires { has_gaps kind ≡ false }
    ensures { result ≡ offence_of n (rows_of kind) }
{
    match kind {
        newer_kinds::STATUS => offence_at(SYSTEM_ENABLE, n),
        newer_kinds::CONTROLLER => offence_at(CONTROLLER_STATE, n),
        newer_kinds::SESSION => offence_at(COMMUNICATION_PROTOCOL, n).or(offence_at(
            PLUG_AND_PINS,
            n,
        )),
        newer_kinds::CHANGE => offence_at(VEHICLE_READY_FOR_CHARGING, n),
        newer_kinds::CONTROL => offence_at(POWER_FUNCTION, n)
            .or(offence_at(SETPOINTS_MODE, n))
            .or(offence_at(OUTPUT_CONTACTORS, n))
            .or(offence_at(LOWER_OUTPUT_VOLTAGE, n)),
        newer_kinds::FINISHED => offence_at(FINISHED_STATE, n),
        newer_kinds::STOP => offence_at(STOP_ORIGIN, n),
        older_kinds::STATUS => offence_at(OLD_SYSTEM_ENABLE, n),
        older_kinds::SESSION => offence_at(OLD_COMMUNICATION_PROTOCOL, n).or(offence_at(
            OLD_PLUG_AND_PINS,
            n,
        )),
        older_kinds::CHANGE => offence_at(OLD_VEHICLE_READY_FOR_CHARGING, n),
        older_kinds::STOP => offence_at(OLD_STOP_ORIGIN, n),
        older_kinds::FINISHED => offence_at(OLD_FINISHED_STATE, n),
        older_kinds::CONTROLLER => offence_at(OLD_CONTROLLER_STATE, n),
        older_kinds::CCS => offence_at(OLD_CP_STATE, n),
        older_kinds::MCS => offence_at(OLD_CE_STATE, n).or(offence_at(OLD_ID_STATE, n)),
        newer_kinds::CCS => offence_at(CP_STATE, n),
        newer_kinds::MCS => offence_at(CE_STATE, n).or(offence_at(ID_STATE, n)),
        _ => None,
    }
}

// 5 of a frame with the right length.
// Kept (1): as `signals::offence_at`.
pub fn judge_labels(kind: usize, n: u64) -> Result<(usize, u64), Refusal>
    requires { has_gaps kind ≡ false }
    ensures { result ≡ judged_by kind n (offence_of n (rows_of kind)) 0 }
{
    if let Some(start) = offence(kind, n) {
        return Err(Refusal::NoLabel(start));
    }
    Ok((kind, n))
}

// The rows of document 004, the pages of the safety controller: standard identifiers (02, Req 04: "our choice"), byte 0 highest. In the order of their
// identifiers and, within a message, of their starts.
ghost use Rattle.std.specs.Prelude.{◌≡◌, ◌≤◌, ◌<◌, get_or};
ghost use Rattle.page_charger.specs.page_table.specs.Table.{rows, no_row};
ghost use Rattle.page_charger.specs.page_table.specs.Layout.{row_of};

use page_charger::page_table::Line;

pub const END: usize = 61;

// ChargeControl1
pub const CC_TARGET_DUTY_CYCLE: Line = Line(9, 1, 10, 48, false, 0);

pub const CC_PWM_ACTIVE: Line = Line(9, 7, 1, 63, false, 0);

pub const CC_CONTACTOR1_STATE: Line = Line(9, 16, 1, 40, false, 0);

pub const CC_CONTACTOR2_STATE: Line = Line(9, 17, 1, 41, false, 0);

// ChargeState1
pub const CS_CURRENT_DUTY_CYCLE: Line = Line(10, 1, 10, 48, false, 0);

pub const CS_PWM_ACTIVE: Line = Line(10, 7, 1, 63, false, 0);

pub const CS_CURRENT_CP_STATE: Line = Line(10, 18, 3, 40, false, 0b11111111);

pub const CS_CP_SHORT_CIRCUIT: Line = Line(10, 19, 1, 43, false, 0);

pub const CS_DIODE_FAULT: Line = Line(10, 20, 1, 44, false, 0);

pub const CS_CURRENT_PP_STATE: Line = Line(10, 26, 3, 32, false, 0b11111111);

pub const CS_CONTACTOR1_STATE: Line = Line(10, 32, 1, 24, false, 0);

pub const CS_CONTACTOR2_STATE: Line = Line(10, 33, 1, 25, false, 0);

pub const CS_CONTACTOR1_ERROR: Line = Line(10, 34, 1, 26, false, 0);

pub const CS_CONTACTOR2_ERROR: Line = Line(10, 35, 1, 27, false, 0);

pub const CS_ESTOP1_CHARGING_ABORT: Line = Line(10, 40, 1, 16, false, 0);

pub const CS_ESTOP2_CHARGING_ABORT: Line = Line(10, 41, 1, 17, false, 0);

pub const CS_ESTOP3_CHARGING_ABORT: Line = Line(10, 42, 1, 18, false, 0);

pub const CS_IMD_RCM_CHARGING_ABORT: Line = Line(10, 43, 1, 19, false, 0);

pub const CS_IMD_RCM_TEST_FAILURE: Line = Line(10, 44, 1, 20, false, 0);

// PT1000State
pub const PT1_TEMPERATURE: Line = Line(11, 7, 14, 50, true, 0);

pub const PT1_CHARGING_STOPPED: Line = Line(11, 8, 1, 48, false, 0);

pub const PT1_SELFTEST_FAILED: Line = Line(11, 9, 1, 49, false, 0);

pub const PT2_TEMPERATURE: Line = Line(11, 23, 14, 34, true, 0);

pub const PT2_CHARGING_STOPPED: Line = Line(11, 24, 1, 32, false, 0);

pub const PT2_SELFTEST_FAILED: Line = Line(11, 25, 1, 33, false, 0);

pub const PT3_TEMPERATURE: Line = Line(11, 39, 14, 18, true, 0);

pub const PT3_CHARGING_STOPPED: Line = Line(11, 40, 1, 16, false, 0);

pub const PT3_SELFTEST_FAILED: Line = Line(11, 41, 1, 17, false, 0);

pub const PT4_TEMPERATURE: Line = Line(11, 55, 14, 2, true, 0);

pub const PT4_CHARGING_STOPPED: Line = Line(11, 56, 1, 0, false, 0);

pub const PT4_SELFTEST_FAILED: Line = Line(11, 57, 1, 1, false, 0);

// 01: "layouts are one constant table". A row stands at its place in it: the compiler makes look-up tables of the arms (docs/DECISIONS.md, "Shape").
// Kept (4): no conversion, but the row at a place of the table (`rows`).
#[tactic(auto, using(crate::proofs::Arms::row_of_key))]
pub fn line_at(i: usize) -> Line
    requires { (30 ≤ i) × (i < 61) }
    ensures { row_of result ≡ get_or rows i no_row }
{
    match i {
        // ChargeControl1
        30 => CC_TARGET_DUTY_CYCLE, // CC_TargetDutyCycle
        31 => CC_PWM_ACTIVE, // CC_PWM_Active
        32 => CC_CONTACTOR1_STATE, // CC_Contactor1State
        33 => CC_CONTACTOR2_STATE, // CC_Contactor2State
        // ChargeState1
        34 => CS_CURRENT_DUTY_CYCLE, // CS_CurrentDutyCycle
        35 => CS_PWM_ACTIVE, // CS_PWM_Active
        36 => CS_CURRENT_CP_STATE, // CS_CurrentCpState
        37 => CS_CP_SHORT_CIRCUIT, // CS_CpShortCircuit
        38 => CS_DIODE_FAULT, // CS_DiodeFault
        39 => CS_CURRENT_PP_STATE, // CS_CurrentPpState
        40 => CS_CONTACTOR1_STATE, // CS_Contactor1State
        41 => CS_CONTACTOR2_STATE, // CS_Contactor2State
        42 => CS_CONTACTOR1_ERROR, // CS_Contactor1Error
        43 => CS_CONTACTOR2_ERROR, // CS_Contactor2Error
        44 => CS_ESTOP1_CHARGING_ABORT, // CS_Estop1ChargingAbort
        45 => CS_ESTOP2_CHARGING_ABORT, // CS_Estop2ChargingAbort
        46 => CS_ESTOP3_CHARGING_ABORT, // CS_Estop3ChargingAbort
        47 => CS_IMD_RCM_CHARGING_ABORT, // CS_ImdRcmChargingAbort
        48 => CS_IMD_RCM_TEST_FAILURE, // CS_ImdRcmTestFailure
        // PT1000State
        49 => PT1_TEMPERATURE, // PT1_Temperature
        50 => PT1_CHARGING_STOPPED, // PT1_ChargingStopped
        51 => PT1_SELFTEST_FAILED, // PT1_SelftestFailed
        52 => PT2_TEMPERATURE, // PT2_Temperature
        53 => PT2_CHARGING_STOPPED, // PT2_ChargingStopped
        54 => PT2_SELFTEST_FAILED, // PT2_SelftestFailed
        55 => PT3_TEMPERATURE, // PT3_Temperature
        56 => PT3_CHARGING_STOPPED, // PT3_ChargingStopped
        57 => PT3_SELFTEST_FAILED, // PT3_SelftestFailed
        58 => PT4_TEMPERATURE, // PT4_Temperature
        59 => PT4_CHARGING_STOPPED, // PT4_ChargingStopped
        60 => PT4_SELFTEST_FAILED, // PT4_SelftestFailed
        _ => unreachable!(),
    }
}

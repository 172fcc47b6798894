// The settings of a run.
ghost use Rattle.std.specs.Prelude.{◌≡◌, ◌∷◌, []};

use nbody_model::Setup;
use std::marker::Model;
use store_io::Text;

/// The settings of a run, one field per row of the table of parameters.
/// Every value lies in the range of its row, `low_bin` isn't above `top_bin`, and no two names clash.
#[derive(Debug, Drop)]
pub struct Params {
    /// The snapshot that a run begins with.
    pub init_cond_file: Text,
    /// The base of the names of snapshots.
    pub snapshot_file_base: Text,
    /// The list of times in ticks at which snapshots are due.
    pub output_list_filename: Option<Text>,
    /// The table of periodic corrections.
    pub ewald_table_file: Option<Text>,
    /// The base of the names of restart files.
    pub restart_file_base: Text,
    /// The file of kicks.
    pub kick_file: Text,
    /// The file of the ranks' events.
    pub rank_trace_file: Text,
    /// The ticks of a run.
    pub time_max: u64,
    /// The lowest bin.
    pub low_bin: u64,
    /// The highest bin.
    pub top_bin: u64,
    /// The opening angle in 1/256.
    pub err_tol_theta: u64,
    /// The accuracy of steps in 1/65536.
    pub err_tol_int_accuracy: u64,
    /// The constant of gravity.
    pub gravity_constant_internal: u64,
    /// The shift of velocities.
    pub velocity_shift: u64,
    /// The softening length of kind 1, in length units.
    pub softening_type1: u64,
    /// The softening length of kind 2, in length units.
    pub softening_type2: u64,
    /// The softening length of kind 3, in length units.
    pub softening_type3: u64,
    /// The softening length of kind 4, in length units.
    pub softening_type4: u64,
    /// The softening length of kind 5, in length units.
    pub softening_type5: u64,
    /// The base steps between restart files, 0 for none.
    pub restart_every: u64,
    /// 1 where the ranks' events are written, otherwise 0.
    pub rank_trace: u64,
    /// The seed of the delivery order.
    pub delivery_seed: u64,
    /// The table of the expansion.
    pub expansion_table_file: Option<Text>,
    /// The file of bins.
    pub bin_file: Option<Text>,
}

impl Model for Params {
    ghost use Rattle.param_file.specs.Settings.{ParamsData, IsParams};

    ghost Value = { ParamsData };

    ghost view = { λ p. record { init_cond_file = p.init_cond_file; snapshot_file_base = p.snapshot_file_base; output_list_filename = p.output_list_filename; ewald_table_file = p.ewald_table_file; restart_file_base = p.restart_file_base; kick_file = p.kick_file; rank_trace_file = p.rank_trace_file; time_max = p.time_max; low_bin = p.low_bin; top_bin = p.top_bin; err_tol_theta = p.err_tol_theta; err_tol_int_accuracy = p.err_tol_int_accuracy; gravity_constant_internal = p.gravity_constant_internal; velocity_shift = p.velocity_shift; softening_type1 = p.softening_type1; softening_type2 = p.softening_type2; softening_type3 = p.softening_type3; softening_type4 = p.softening_type4; softening_type5 = p.softening_type5; restart_every = p.restart_every; rank_trace = p.rank_trace; delivery_seed = p.delivery_seed; expansion_table_file = p.expansion_table_file; bin_file = p.bin_file } };

    ghost invariant = { λ p. IsParams (record { init_cond_file = p.init_cond_file; snapshot_file_base = p.snapshot_file_base; output_list_filename = p.output_list_filename; ewald_table_file = p.ewald_table_file; restart_file_base = p.restart_file_base; kick_file = p.kick_file; rank_trace_file = p.rank_trace_file; time_max = p.time_max; low_bin = p.low_bin; top_bin = p.top_bin; err_tol_theta = p.err_tol_theta; err_tol_int_accuracy = p.err_tol_int_accuracy; gravity_constant_internal = p.gravity_constant_internal; velocity_shift = p.velocity_shift; softening_type1 = p.softening_type1; softening_type2 = p.softening_type2; softening_type3 = p.softening_type3; softening_type4 = p.softening_type4; softening_type5 = p.softening_type5; restart_every = p.restart_every; rank_trace = p.rank_trace; delivery_seed = p.delivery_seed; expansion_table_file = p.expansion_table_file; bin_file = p.bin_file }) };
}

impl Params {
    ghost use Rattle.param_file.specs.Settings.{setup_of, IsParams};

    /// A law without a value: whatever the settings are, they pass every check of a parameter file.
    pub fn are_accepted(&self)
        ensures { IsParams self.now }
    {
        let _ticks = self.time_max;
    }

    /// What forces and steps go by.
    pub fn setup(&self) -> Setup
        ensures { result ≡ setup_of self.now }
    {
        Setup {
            time_max: self.time_max,
            low_bin: self.low_bin as u8,
            top_bin: self.top_bin as u8,
            theta: self.err_tol_theta as u32,
            eta: self.err_tol_int_accuracy as u32,
            gravity: self.gravity_constant_internal,
            velocity_shift: self.velocity_shift as u8,
            soft: [
                256,
                self.softening_type1 as u32,
                self.softening_type2 as u32,
                self.softening_type3 as u32,
                self.softening_type4 as u32,
                self.softening_type5 as u32,
            ],
        }
    }
}

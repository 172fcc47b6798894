// What ranks find forces by.
ghost use Rattle.std.specs.Prelude.{◌≡◌, option_copied};
ghost use Rattle.nbody_model.specs.Setups.{IsSetup};
ghost use Rattle.model_laws.specs.Laws.{CorrectsLittle};

use ewald_table::Table;
use nbody_model::Setup;
use std::marker::Model;

/// The setup and perhaps a table of corrections by which ranks find forces. No call hands them out, so whoever has a kit alone
/// learns a force by letting ranks act.
#[derive(Drop)]
pub struct Kit<'a> {
    setup: Setup,
    table: Option<&'a Table>,
}

impl<'a> Model for Kit<'a> {
    ghost use Rattle.std.specs.Prelude.{option_map};
    ghost use Rattle.nbody_model.specs.Tables.{Gravity};
    ghost use Rattle.model_laws.specs.Laws.{CorrectsLittle};

    ghost Value = { Gravity };

    ghost view = { λ k. record { setup = k.setup; table = option_map (λ t. t.now) k.table } };

    ghost invariant = { λ k. CorrectsLittle (option_map (λ t. t.now) k.table) };
}

impl<'a> Kit<'a> {
    /// A kit of a setup and a table, or of none. No correction of the table is above 2^31, as of every table that was read.
    pub fn new(setup: Setup, table: Option<&'a Table>) -> Kit<'a>
        requires { CorrectsLittle (option_copied table) }
        ensures { result ≡ record { setup = setup; table = option_copied table.entry } }
    {
        Kit { setup, table }
    }

    /// Its setup and its table keep their limits.
    pub fn keeps_limits(&self)
        ensures setup { IsSetup self.now.setup }
        ensures table { CorrectsLittle self.now.table }
    {
        let _theta = self.setup.theta;
        let _table = self.table;
    }

    /// Its setup.
    pub(crate) fn setup(&self) -> &Setup
        ensures { result.now ≡ self.now.setup }
    {
        &self.setup
    }

    /// Its table, if there is one.
    pub(crate) fn table(&self) -> Option<&'a Table>
        ensures { option_copied result ≡ self.now.table }
    {
        self.table
    }
}

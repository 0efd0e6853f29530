//! ECBs whose clause is one `trace` of a variable, without a predicate.
ghost use Rattle.std.specs.Prelude.{◌≡◌, ◌<◌, length, map};
ghost use Rattle.dt_consumer.specs.TracedEcbs.{traced_of};
ghost use Rattle.dt_lang.specs.Program.{form_of_clause};

use dt_ecb::Ecb;
use dt_expr::NumberVariable;
use dt_lang::Clause;
use dt_record::traced_variable;

/// All that a firing needs of an ECB whose clause is one `trace` of a variable that names a number, without a predicate: so neither the ECB nor the clause is
/// read then.
#[derive(Clone, Copy)]
pub(crate) struct TracedEcb {
    pub(crate) epid: u32,
    pub(crate) variable: NumberVariable,
}

impl TracedEcb {
    /// That of an ECB, if its clause is such a one.
    pub(crate) fn of(ecb: Ecb, clauses: &[Clause]) -> Option<Self>
        requires { ecb.clause < length clauses.now }
        ensures { result ≡ traced_of (map form_of_clause clauses.now) ecb }
    {
        let variable = traced_variable(&clauses[ecb.clause])?;
        Some(TracedEcb {
            epid: ecb.epid,
            variable,
        })
    }
}

//! A consumer's options.
ghost use Rattle.std.specs.Prelude.{◌≡◌, ◌≤◌};
ghost use Rattle.dt_aggstore.specs.declared.limits.TheConstants.{AGGSIZE_MAX};
ghost use Rattle.dt_buffer.specs.declared.limits.TheConstants.{SIZE_MAX};
ghost use Rattle.dt_locals.specs.declared.limits.TheConstants.{DYNVARSIZE_MAX, DYNVARSIZE_MIN};
ghost use Rattle.dt_speculation.specs.declared.limits.TheConstants.{NSPEC_MAX, SPECSIZE_MAX, SPECSIZE_MIN};
ghost use Rattle.dt_life.specs.Options as spec;
ghost use Rattle.dt_life.specs.declared.limits.TheConstants.{HISTORY_MAX, HISTORY_MIN, NSPEC_MIN};

use crate::command::OptionValue;
use crate::limits::{
    AGGSIZE, AGGSIZE_MIN, BUFFER_SIZE, BUFFER_SIZE_MIN, DYNVARSIZE, HISTORY, HISTORY_MAX,
    HISTORY_MIN, NSPEC, NSPEC_MIN, SPECSIZE,
};
use crate::phase::Phase;
use dt_aggstore::AGGSIZE_MAX;
use dt_buffer::{Policy, SIZE_MAX};
use dt_locals::{DYNVARSIZE_MAX, DYNVARSIZE_MIN};
use dt_speculation::{NSPEC_MAX, SPECSIZE_MAX, SPECSIZE_MIN};

/// What holds of a consumer's tracing from its `go` on. (illumos Dynamic Tracing Guide, "Options and Tunables".)
#[derive(Clone, Copy)]
pub struct Options {
    /// How many bytes each principal buffer has.
    pub bufsize: usize,
    /// By which policy a buffer keeps records.
    pub bufpolicy: Policy,
    /// How many bytes the entries of aggregations may cost on each processor.
    pub aggsize: usize,
    /// After how many seen firings tracing ends.
    pub histsize: u32,
    /// How many bytes the thread-local variables that aren't 0 may cost.
    pub dynvarsize: usize,
    /// How many speculations there may be.
    pub nspec: usize,
    /// How many bytes a speculation has on each processor.
    pub specsize: usize,
    ghost small: { bufsize ≤ SIZE_MAX },
    ghost few_entries: { aggsize ≤ AGGSIZE_MAX },
    ghost some: { HISTORY_MIN ≤ histsize },
    ghost few: { histsize ≤ HISTORY_MAX },
    ghost some_room: { DYNVARSIZE_MIN ≤ dynvarsize },
    ghost small_room: { dynvarsize ≤ DYNVARSIZE_MAX },
    ghost some_speculations: { NSPEC_MIN ≤ nspec },
    ghost few_speculations: { nspec ≤ NSPEC_MAX },
    ghost some_bytes: { SPECSIZE_MIN ≤ specsize },
    ghost few_bytes: { specsize ≤ SPECSIZE_MAX },
}

impl Options {
    ghost use Rattle.std.specs.Option.{option_map};
    ghost use Rattle.dt_life.specs.Forms.{form_of_options};
    ghost use Rattle.dt_life.specs.Life.{SetUp, is_readable};
    ghost use Rattle.dt_life.specs.Options.{default_options, with_setting, setting_of, policy_of, number_set};

    /// The options where no line sets them.
    pub fn new() -> Self
        ensures { form_of_options result ≡ default_options }
    {
        Options {
            bufsize: BUFFER_SIZE,
            bufpolicy: Policy::Switch,
            aggsize: AGGSIZE,
            histsize: HISTORY,
            dynvarsize: DYNVARSIZE,
            nspec: NSPEC,
            specsize: SPECSIZE,
        }
    }

    /// These options with one that is set, or `None` where there is no option of this name, or the value is of another
    /// kind than it takes, or out of its range.
    pub fn set(self, name: &str, value: &OptionValue) -> Option<Self>
        ensures { option_map form_of_options result
            ≡ option_map (with_setting (form_of_options self)) (setting_of name.now value.now) }
    {
        match value {
            OptionValue::Number(number) => self.set_number(name, *number),
            OptionValue::Text(word) => {
                if name == "bufpolicy" {
                    let mut options = self;
                    options.bufpolicy = policy_of(word.as_str())?;
                    Some(options)
                } else {
                    None
                }
            }
            OptionValue::Other => None,
        }
    }

    /// Whether a snap of a buffer is answered in this phase: from `go` on, under ring only after tracing ended.
    pub fn is_readable(self, phase: Phase) -> bool
        ensures { (s : SetUp) → form_of_options self ≡ s.options → result ≡ is_readable s phase }
    {
        match phase {
            Phase::Inactive => false,
            Phase::Active => !matches!(self.bufpolicy, Policy::Ring),
            Phase::Stopped(_) => true,
        }
    }

    /// The same for a number.
    fn set_number(self, name: &str, number: u64) -> Option<Self>
        ensures { option_map form_of_options result
            ≡ option_map (with_setting (form_of_options self)) (number_set name.now number) }
    {
        let mut options = self;
        if name == "bufsize" && BUFFER_SIZE_MIN as u64 <= number && number <= SIZE_MAX as u64 {
            options.bufsize = number as usize;
            Some(options)
        } else if name == "aggsize"
            && AGGSIZE_MIN as u64 <= number
            && number <= AGGSIZE_MAX as u64
        {
            options.aggsize = number as usize;
            Some(options)
        } else if name == "histsize"
            && u64::from(HISTORY_MIN) <= number
            && number <= u64::from(HISTORY_MAX)
        {
            options.histsize = number as u32;
            Some(options)
        } else if name == "dynvarsize"
            && DYNVARSIZE_MIN as u64 <= number
            && number <= DYNVARSIZE_MAX as u64
        {
            options.dynvarsize = number as usize;
            Some(options)
        } else if name == "nspec" && NSPEC_MIN as u64 <= number && number <= NSPEC_MAX as u64 {
            options.nspec = number as usize;
            Some(options)
        } else if name == "specsize"
            && SPECSIZE_MIN as u64 <= number
            && number <= SPECSIZE_MAX as u64
        {
            options.specsize = number as usize;
            Some(options)
        } else {
            None
        }
    }
}

/// The policy of a word.
fn policy_of(word: &str) -> Option<Policy>
    ensures { result ≡ spec.policy_of word.now }
{
    match word {
        "switch" => Some(Policy::Switch),
        "fill" => Some(Policy::Fill),
        "ring" => Some(Policy::Ring),
        _ => None,
    }
}

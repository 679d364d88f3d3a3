ghost use Rattle.std.specs.Prelude.{◌≡◌, option_map};
ghost use Rattle.alg_classes.specs.Classes.{pure_at, pure_between, pure_example};

use alg_model::Value;

/// A value, or two, at which a fact fails.
#[derive(Debug, Drop)]
pub enum Example {
    At(Value),
    Between(Value, Value),
}

impl Example {
    /// The value as an example, if there is one.
    pub fn at(value: Option<Value>) -> Option<Example>
        ensures { option_map pure_example result ≡ option_map pure_at value }
    {
        Some(Example::At(value?))
    }

    /// The two values as an example, if they are there.
    pub fn between(values: Option<(Value, Value)>) -> Option<Example>
        ensures { option_map pure_example result ≡ option_map pure_between values }
    {
        let (first, second) = values?;
        Some(Example::Between(first, second))
    }
}

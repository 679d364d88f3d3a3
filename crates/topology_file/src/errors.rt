// Why a line gave nothing.
ghost use Rattle.std.specs.Prelude.{◌≡◌, Ok, IfOk, IfErr};
ghost use Rattle.alg_model.specs.Application.{IsLabel};
ghost use Rattle.alg_model.specs.Bounds.{AtMost, LabelAtMost, greatest_number};
ghost use Rattle.alg_model.specs.Carriers.{carrier_of, In};
ghost use Rattle.alg_model.specs.Views.{pure_value, pure_label};
ghost use Rattle.sig_text.specs.Spelled.{spelled};
ghost use Rattle.topology_file.specs.LineErrors.{error_at, IsRefusedAs};
ghost use Rattle.topology_file.specs.NetText.{label_in, value_in};
ghost use Rattle.topology_file.specs.declared.errors.LineError.TheVariants.{NoMemory as NoMemoryLeft};

use crate::{NetError, NetFault, NetKind};
use alg_model::{Alg, Label, Value};
use meta_base::NoMemory;
use sig_text::{LitError, read_label, read_value};
use std::alloc::Global;

/// Why a line gave nothing.
#[derive(Clone, Copy, Debug)]
pub enum LineError {
    /// It breaks a rule.
    Bad(NetKind),
    /// There was no memory for what it adds.
    NoMemory,
}

impl From<NoMemory> for LineError {
    ghost from_gives = { λ _ e. e ≡ NoMemoryLeft };

    fn from(_: NoMemory) -> Self {
        LineError::NoMemory
    }
}

impl LineError {
    /// The error of a text of which this is the first bad line.
    pub fn at(self, line: u32) -> NetError
        ensures { result ≡ error_at line self }
    {
        match self {
            LineError::Bad(kind) => NetError::Bad(NetFault { line, kind }),
            LineError::NoMemory => NetError::NoMemory,
        }
    }
}

/// The label that the text spells in the algebra.
pub fn label_of(alloc: Global, alg: &Alg, text: &[u8]) -> Result<Label, LineError>
    ensures ok { IfOk result (λ l. label_in spelled alg.now text.now ≡ Ok (pure_label l)) }
    ensures is_label { IfOk result (λ l. IsLabel alg.now.expression (pure_label l)) }
    ensures bound { IfOk result (λ l. LabelAtMost (greatest_number alg.now.edition) (pure_label l)) }
    ensures bad { IfErr result (IsRefusedAs (label_in spelled alg.now text.now)) }
{
    match read_label(alloc, alg, text) {
        Ok(label) => Ok(label),
        Err(LitError::Bad(fault)) => Err(LineError::Bad(NetKind::BadLabel(fault))),
        Err(LitError::NoMemory) => Err(LineError::NoMemory),
    }
}

/// The value that the text spells in the algebra.
pub fn value_of(alloc: Global, alg: &Alg, text: &[u8]) -> Result<Value, LineError>
    ensures ok { IfOk result (λ v. value_in spelled alg.now text.now ≡ Ok (pure_value v)) }
    ensures is_value { IfOk result (λ v. In (carrier_of alg.now.expression) (pure_value v)) }
    ensures bound { IfOk result (λ v. AtMost (greatest_number alg.now.edition) (pure_value v)) }
    ensures bad { IfErr result (IsRefusedAs (value_in spelled alg.now text.now)) }
{
    match read_value(alloc, alg, text) {
        Ok(value) => Ok(value),
        Err(LitError::Bad(fault)) => Err(LineError::Bad(NetKind::BadValue(fault))),
        Err(LitError::NoMemory) => Err(LineError::NoMemory),
    }
}

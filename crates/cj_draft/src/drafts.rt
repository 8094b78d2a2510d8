//! Drafts: sound codes that passes change.

ghost use Rattle.std.specs.Prelude.{◌≡◌, []};
ghost use Rattle.cj_draft.specs.WellNamed.{IsContextOf};
ghost use Rattle.cj_draft.specs.Sound.{Sound};

use crate::code::Code;
use crate::facts::FactList;
use cj_ir::Checked;
use std::marker::Model;

/// A code that is sound for its function in a program, in a context of facts of the function's parameters.
///
/// Sound: with whatever arguments that satisfy the context it is entered, each of its instructions does what the base
/// run does from the frames of its label's point, and goes on to a label with the frames that the base run has then.
/// `specs/Sound.antt` says it in full.
#[derive(Debug, Drop)]
pub struct Draft<'p> {
    checked: &'p Checked,
    context: FactList,
    code: Code,
}

impl<'p> Model for Draft<'p> {
    ghost use Rattle.cj_draft.specs.Bodies.{Body, IsSoundBody};

    ghost Value = { Body };

    ghost view = { λ d. record { program = d.checked.now; context = d.context; code = d.code } };

    ghost invariant = { λ d. IsSoundBody d.checked.now d.context d.code };
}

impl<'p> Draft<'p> {
    /// The code as a draft with the empty context, in which it has to be sound. It takes no memory.
    pub fn adopt(checked: &'p Checked, code: Code) -> Draft<'p>
        requires { Sound checked.now [] code.function code }
        ensures { result ≡ record { program = checked.now; context = []; code = code } }
    {
        let context = FactList::new(code.places.allocator());
        Draft {
            checked,
            context,
            code,
        }
    }

    /// The code as a draft with that context, in which it has to be sound. It takes no memory.
    pub fn adopt_in(checked: &'p Checked, context: FactList, code: Code) -> Draft<'p>
        requires context { IsContextOf checked.now code.function context }
        requires sound { Sound checked.now context code.function code }
        ensures { result ≡ record { program = checked.now; context = context; code = code } }
    {
        Draft {
            checked,
            context,
            code,
        }
    }

    /// The program, the context and the code.
    pub fn into_parts(self) -> (&'p Checked, FactList, Code)
        ensures program { result.0.now ≡ self.entry.program }
        ensures context { result.1 ≡ self.entry.context }
        ensures code { result.2 ≡ self.entry.code }
        ensures fits { IsContextOf self.entry.program self.entry.code.function self.entry.context }
        ensures sound { Sound self.entry.program self.entry.context self.entry.code.function self.entry.code }
    {
        let Draft {
            checked,
            context,
            code,
        } = self;
        (checked, context, code)
    }

    /// The program for which the code is sound.
    pub fn checked(&self) -> &'p Checked
        ensures { result.now ≡ self.now.program }
    {
        self.checked
    }

    /// Facts of the arguments with which the code is entered.
    pub fn context(&self) -> &FactList
        ensures same { result.now ≡ self.now.context }
        ensures fits { IsContextOf self.now.program self.now.code.function self.now.context }
    {
        &self.context
    }

    pub fn code(&self) -> &Code
        ensures same { result.now ≡ self.now.code }
        ensures sound { Sound self.now.program self.now.context self.now.code.function self.now.code }
    {
        &self.code
    }
}

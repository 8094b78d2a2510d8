//! Versions: sound codes that are run.

ghost use Rattle.std.specs.Prelude.{◌≡◌, []};
ghost use Rattle.cj_draft.specs.WellNamed.{IsContextOf};
ghost use Rattle.cj_draft.specs.Sound.{Sound};
ghost use Rattle.cj_draft.specs.Bodies.{HasNoAnchors};

use crate::code::Code;
use crate::facts::FactList;
use cj_ir::Checked;
use std::marker::Model;

/// A code without Anchors that is sound for its function in a program, in a context of facts of the function's
/// parameters, as that of a draft.
#[derive(Debug, Drop)]
pub struct Version<'p> {
    checked: &'p Checked,
    context: FactList,
    code: Code,
}

impl<'p> Model for Version<'p> {
    ghost use Rattle.cj_draft.specs.Bodies.{Body, IsSoundBody, HasNoAnchors};

    ghost Value = { Body };

    ghost view = { λ v. record { program = v.checked.now; context = v.context; code = v.code } };

    ghost invariant = { λ v. IsSoundBody v.checked.now v.context v.code × HasNoAnchors v.code };
}

impl<'p> Version<'p> {
    /// The code as a version with the empty context, in which it has to be sound. It takes no memory.
    pub fn adopt(checked: &'p Checked, code: Code) -> Version<'p>
        requires sound { Sound checked.now [] code.function code }
        requires no_anchors { HasNoAnchors code }
        ensures { result ≡ record { program = checked.now; context = []; code = code } }
    {
        let context = FactList::new(code.places.allocator());
        Version {
            checked,
            context,
            code,
        }
    }

    /// The code as a version with that context, in which it has to be sound. It takes no memory.
    pub fn adopt_in(checked: &'p Checked, context: FactList, code: Code) -> Version<'p>
        requires context { IsContextOf checked.now code.function context }
        requires sound { Sound checked.now context code.function code }
        requires no_anchors { HasNoAnchors code }
        ensures { result ≡ record { program = checked.now; context = context; code = code } }
    {
        Version {
            checked,
            context,
            code,
        }
    }

    /// The program for which the code is sound.
    pub fn checked(&self) -> &'p Checked
        ensures { result.now ≡ self.now.program }
    {
        self.checked
    }

    /// Facts of the arguments with which the code is entered.
    pub fn context(&self) -> &FactList
        ensures same { result.now ≡ self.now.context }
        ensures fits { IsContextOf self.now.program self.now.code.function self.now.context }
    {
        &self.context
    }

    #[inline]
    pub fn code(&self) -> &Code
        ensures same { result.now ≡ self.now.code }
        ensures sound { Sound self.now.program self.now.context self.now.code.function self.now.code }
        ensures no_anchors { HasNoAnchors self.now.code }
    {
        &self.code
    }
}

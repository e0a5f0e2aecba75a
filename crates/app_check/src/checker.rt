//! What is kept of a script's tokens: the visible names, and the least fault so far.

ghost use Rattle.std.specs.Prelude.{◌≡◌, ◌++◌, OnOk};
ghost use Rattle.script_tree.specs.BuiltIns.{built_in_named};
ghost use Rattle.script_tree.specs.Marks.{MainOnly, Applies, Calls, Closes, Defines, HasOutputs, Joins, Main, NamesApp, Declares, Opens, Other, Outputs, MakesVisible, Takes, Uses, Writes};
ghost use Rattle.script_tree.specs.Rules.{app_named, built_in_faults, call_faults, is_visible, broken_if};
ghost use Rattle.app_check.specs.Seeing as seeing;
ghost use Rattle.app_check.specs.Seeing.{all_noted, nothing_seen, see, state_of};
ghost use Rattle.app_check.specs.Bodies.{names_of};

use crate::fault::{Fault, lesser};
use crate::outer::Outer;
use crate::rules::{
    MAX_COUNT, body_of, is_count, is_join, is_long, is_main, is_plain, outputs_of, waits,
};
use app_index::{Apps, NameTable};
use flow_base::Text;
use script_tree::built_ins::{arity, named};
use script_tree::tree::AppDef;
use script_tree::{BodyKind, Rule};
use std::alloc::{AllocError, Global};
use std::marker::Model;

/// Looks at one mark after another. Contracts see what is kept of them.
#[derive(Drop)]
pub struct Checker<'a> {
    apps: Apps<'a>,
    // of the tokens to come
    places: &'a [u32],
    visible: NameTable<'a>,
    outer: Outer,
    body: BodyKind,
    least: Option<Fault>,
}

impl<'a> Model for Checker<'a> {
    ghost use Rattle.std.specs.Coded.{codes};
    ghost use Rattle.script_tree.specs.contracts.tree.Statement as statement;
    ghost use Rattle.script_tree.specs.contracts.tree.Expr as expr;
    ghost use Rattle.script_tree.specs.contracts.tree.CallExpr as call;
    ghost use Rattle.app_check.specs.Seeing.{Seen};

    ghost Value = { Seen };

    ghost coded = { Prim.hlevel (codes, statement.the_row.coded, expr.the_row.coded, call.the_row.coded) };

    ghost view = { λ c. record { apps = c.apps; places = c.places.now; visible = c.visible; outer = c.outer; body = c.body; least = c.least } };
}

impl<'a> Checker<'a> {
    /// Before the first token.
    pub fn new(alloc: Global, apps: Apps<'a>, places: &'a [u32]) -> Checker<'a>
        ensures { result ≡ nothing_seen apps.entry places.now }
    {
        Checker {
            apps,
            places,
            visible: NameTable::new(alloc),
            outer: Outer::new(alloc),
            body: BodyKind::OfMain,
            least: None,
        }
    }

    /// The least fault: its place, and the rule that is broken there.
    pub fn least(&self) -> Option<Fault>
        ensures { result ≡ self.now.least }
    {
        self.least
    }

    // The place of the next token.
    fn place(&self) -> u32
        ensures { result ≡ seeing.place_of self.now }
    {
        match self.places.first() {
            None => 0,
            Some(place) => *place,
        }
    }

    // The rule is broken at the next token, where it holds.
    fn note(&mut self, holds: bool, rule: Rule)
        ensures { self.new ≡ all_noted self.old (broken_if holds rule) }
    {
        if holds {
            let place = self.place();
            self.least = Some(lesser(self.least, (place, rule)));
        }
    }

    fn note_both(&mut self, holds: bool, rule: Rule, other_holds: bool, other: Rule)
        ensures { self.new ≡ all_noted self.old (broken_if holds rule ++ broken_if other_holds other) }
    {
        self.note(holds, rule);
        self.note(other_holds, other);
    }

    // On to the next token.
    fn pass(&mut self)
        ensures { self.new ≡ seeing.passes self.old }
    {
        if let Some((_, rest)) = self.places.split_first() {
            self.places = rest;
        }
    }

    fn is_visible(&self, name: &Text) -> bool
        ensures { result ≡ is_visible name.now (state_of self.now) }
    {
        self.visible.has(name.as_str())
    }

    fn show(&mut self, name: &'a Text) -> Result<(), AllocError>
        ensures { OnOk result (self.new ≡ seeing.shows name.now self.old) }
    {
        self.visible.insert(name.as_str())?;
        Ok(())
    }

    fn open(&mut self, name: Option<&'a Text>) -> Result<(), AllocError>
        ensures { OnOk result (self.new ≡ seeing.opens (names_of name.entry) self.old) }
    {
        self.outer.push(self.visible.len())?;
        match name {
            None => Ok(()),
            Some(name) => self.show(name),
        }
    }

    fn begin(&mut self, body: BodyKind)
        ensures { self.new ≡ seeing.begins body self.old }
    {
        self.visible.truncate(0);
        self.outer.clear();
        self.body = body;
    }

    /// A token of which nothing is asked.
    #[tactic(auto, unfolding(crate::specs::Seeing::see))]
    pub fn pass_other(&mut self)
        ensures { self.new ≡ see self.old Other }
    {
        self.pass();
    }

    /// `{`, behind which a name may be visible.
    #[tactic(auto, unfolding(crate::specs::Seeing::see))]
    pub fn open_block(&mut self, name: Option<&'a Text>) -> Result<(), AllocError>
        ensures { OnOk result (self.new ≡ see self.old (Opens (names_of name.entry))) }
    {
        self.open(name)?;
        self.pass();
        Ok(())
    }

    /// `}`.
    #[tactic(auto, unfolding(crate::specs::Seeing::see))]
    pub fn close_block(&mut self)
        ensures { self.new ≡ see self.old Closes }
    {
        let count = self.outer.pop();
        self.visible.truncate(count);
        self.pass();
    }

    /// The name of a variable in its declaration.
    #[tactic(auto, unfolding(crate::specs::Seeing::see))]
    pub fn declare(&mut self, name: &Text)
        ensures { self.new ≡ see self.old (Declares name.now) }
    {
        let visible = self.is_visible(name);
        self.note(visible, Rule::Repeated);
        self.pass();
    }

    /// A token behind which a variable is visible.
    #[tactic(auto, unfolding(crate::specs::Seeing::see))]
    pub fn make_visible(&mut self, name: &'a Text) -> Result<(), AllocError>
        ensures { OnOk result (self.new ≡ see self.old (MakesVisible name.now)) }
    {
        self.show(name)?;
        self.pass();
        Ok(())
    }

    /// A variable that is used or set.
    #[tactic(auto, unfolding(crate::specs::Seeing::see))]
    pub fn use_variable(&mut self, name: &Text)
        ensures { self.new ≡ see self.old (Uses name.now) }
    {
        let visible = self.is_visible(name);
        self.note(!visible, Rule::UnknownName);
        self.pass();
    }

    fn note_built_in(&mut self, name: &Text, count: usize)
        ensures { self.new ≡ all_noted self.old (built_in_faults (state_of self.old) (built_in_named name.now) count) }
    {
        match named(name) {
            None => self.note(true, Rule::UnknownName),
            Some(built_in) => {
                let misplaced = waits(built_in) && !is_main(self.body);
                self.note_both(
                    arity(built_in) != count,
                    Rule::Arity,
                    misplaced,
                    Rule::WaitOutsideMain,
                );
            }
        }
    }

    /// A built-in's name, with so many arguments.
    #[tactic(auto, unfolding(crate::specs::Seeing::see))]
    pub fn apply_built_in(&mut self, name: &Text, count: usize)
        ensures { self.new ≡ see self.old (Applies name.now count) }
    {
        self.note_built_in(name, count);
        self.pass();
    }

    /// `call`.
    #[tactic(auto, unfolding(crate::specs::Seeing::see))]
    pub fn call(&mut self)
        ensures { self.new ≡ see self.old Calls }
    {
        self.note(is_plain(self.body), Rule::CallInApp);
        self.pass();
    }

    fn note_call(&mut self, name: &Text, count: usize, names: usize)
        ensures { self.new ≡ all_noted self.old (call_faults (app_named self.old.apps name.now) count names) }
    {
        match self.apps.named(name.as_str()) {
            None => self.note(true, Rule::UnknownApp),
            Some(app) => {
                let outputs = outputs_of(app.outputs);
                self.note_both(
                    app.parameters.len() != count,
                    Rule::Arity,
                    outputs != names as u64,
                    Rule::Outputs,
                );
            }
        }
    }

    /// The name of the app that is called, with so many arguments and names.
    #[tactic(auto, unfolding(crate::specs::Seeing::see))]
    pub fn call_app(&mut self, name: &Text, count: usize, names: usize)
        ensures { self.new ≡ see self.old (NamesApp name.now count names) }
    {
        self.note_call(name, count, names);
        self.pass();
    }

    /// `print` or `checkpoint`.
    #[tactic(auto, unfolding(crate::specs::Seeing::see))]
    pub fn main_only(&mut self)
        ensures { self.new ≡ see self.old MainOnly }
    {
        self.note(!is_main(self.body), Rule::WaitOutsideMain);
        self.pass();
    }

    /// `write`.
    #[tactic(auto, unfolding(crate::specs::Seeing::see))]
    pub fn write(&mut self)
        ensures { self.new ≡ see self.old Writes }
    {
        self.note(!is_plain(self.body), Rule::Outputs);
        self.pass();
    }

    /// The `join` of an app.
    #[tactic(auto, unfolding(crate::specs::Seeing::see))]
    pub fn join(&mut self, cached: bool)
        ensures { self.new ≡ see self.old (Joins cached) }
    {
        self.note(cached, Rule::CachedJoin);
        self.pass();
    }

    /// The name of an app, before which so many were defined.
    #[tactic(auto, unfolding(crate::specs::Seeing::see))]
    pub fn define_app(
        &mut self,
        alloc: Global,
        number: usize,
        app: &AppDef,
    ) -> Result<(), AllocError>
        ensures { OnOk result (self.new ≡ see self.old (Defines number app.now)) }
    {
        let taken = self.apps.is_taken(app.name.as_str(), number);
        let long = is_long(alloc, app)?;
        self.note_both(taken, Rule::Repeated, long, Rule::CachedTooLong);
        self.begin(body_of(app));
        self.pass();
        Ok(())
    }

    /// A parameter, before which there are so many.
    #[tactic(auto, unfolding(crate::specs::Seeing::see))]
    pub fn take_parameter(&mut self, number: usize, name: &'a Text) -> Result<(), AllocError>
        ensures { OnOk result (self.new ≡ see self.old (Takes number name.now)) }
    {
        let visible = self.is_visible(name);
        self.note_both(number == MAX_COUNT, Rule::Arity, visible, Rule::Repeated);
        self.show(name)?;
        self.pass();
        Ok(())
    }

    /// `outputs`.
    #[tactic(auto, unfolding(crate::specs::Seeing::see))]
    pub fn declare_outputs(&mut self)
        ensures { self.new ≡ see self.old HasOutputs }
    {
        self.note(is_join(self.body), Rule::Outputs);
        self.pass();
    }

    /// How many outputs an app has.
    #[tactic(auto, unfolding(crate::specs::Seeing::see))]
    pub fn output_count(&mut self, count: i64)
        ensures { self.new ≡ see self.old (Outputs count) }
    {
        self.note(!is_count(count), Rule::Outputs);
        self.pass();
    }

    /// `main`.
    #[tactic(auto, unfolding(crate::specs::Seeing::see))]
    pub fn begin_main(&mut self)
        ensures { self.new ≡ see self.old Main }
    {
        self.begin(BodyKind::OfMain);
        self.pass();
    }
}

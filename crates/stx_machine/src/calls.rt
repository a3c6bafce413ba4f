// Calls: what a body's statements and the client call, and how they are left.
ghost use Rattle.std.specs.Prelude.{◌≡◌, ◌≤◌, ◌<◌, [], length, None, IsSome};
ghost use Rattle.stx_scenario.specs.declared.scenario.Scenario.{Scenario as ScenarioData};
ghost use Rattle.stx_base.specs.declared.line.Line.{Line as LineData};
ghost use Rattle.stx_base.specs.Attributes.{attribute as attribute_in};
ghost use Rattle.stx_model.specs.Meanings.{finally, Over};
ghost use Rattle.stx_base.specs.Limits.{most_calls};
ghost use Rattle.stx_model.specs.Playable.{IsPlayable};
ghost use Rattle.stx_model.specs.Scopes.{leaves};
ghost use Rattle.stx_model.specs.Statements.{caught, catches as catches_in};
ghost use Rattle.stx_context.specs.Carrying.{bare};
ghost use Rattle.stx_machine.specs.Sound.{IsCall, IsSound, IsWithin, Leaves, held, no_tokens, rank_at};
ghost use Rattle.stx_machine.specs.Machine.{Comes, IsLonger, MovesOn, GoesTo, IsClass, attribute_of as attribute_at, body_after, called, entered, tops_from};

use crate::machine::Machine;
use crate::setup::Setup;
use crate::stage::Stage;
use stx_base::Line;
use stx_frames::Frame;
use stx_scenario::{ClassNo, MethodNo, TxAttr};

impl Machine {
    /// Calls a method through its bean's proxy.
    pub fn call(&mut self, setup: &Setup, method: MethodNo, catch: Option<ClassNo>)
        requires lines { 1 ≤ self.old.lines.spare }
        requires frames { 1 ≤ self.old.frames.spare }
        requires call { IsCall setup.now.scenario (rank_at setup.now.scenario self.old) method catch }
        requires within { IsWithin setup.now.scenario self.old no_tokens }
        ensures goes { Comes setup.now.scenario self.old (called setup.now.scenario method catch) self.new }
        ensures sound { IsSound setup.now.scenario self.new (held self.new.stage) }
        ensures longer { IsLonger self.old self.new }
    {
        match setup.attributes.of(method) {
            Some(attribute) => {
                self.lines.push(Line::Call {
                    method,
                    propagation: attribute.propagation,
                    read_only: attribute.read_only,
                });
                self.stage = Stage::Opening { method, catch };
            }
            None => {
                self.lines.push(Line::Plain(method));
                self.enter(method, catch);
            }
        }
    }

    /// Calls a method of the same bean, which is never intercepted.
    pub fn call_directly(&mut self, method: MethodNo, catch: Option<ClassNo>)
        requires lines { 1 ≤ self.old.lines.spare }
        requires frames { 1 ≤ self.old.frames.spare }
        ensures goes { (S : ScenarioData) → Comes S self.old (entered S (LineData.This method) method catch) self.new }
        ensures sound { (S : ScenarioData) → IsCall S (rank_at S self.old) method catch → Leaves S self.old no_tokens self.new }
        ensures longer { IsLonger self.old self.new }
    {
        self.lines.push(Line::This(method));
        self.enter(method, catch);
    }

    // Begins the body of a call that opens no scope.
    fn enter(&mut self, method: MethodNo, catch: Option<ClassNo>)
        requires frames { 1 ≤ self.old.frames.spare }
        ensures goes { (S : ScenarioData) → Comes S self.old (λ st. body_after S method 0 catch None (Over None st)) self.new }
        ensures sound { (S : ScenarioData) → IsCall S (rank_at S self.old) method catch → Leaves S self.old no_tokens self.new }
        ensures lines { self.new.lines ≡ self.old.lines }
    {
        self.frames.push(Frame::Body {
            method,
            place: 0,
            catch,
            scope: None,
        });
        self.stage = Stage::Over(None);
    }

    /// Leaves a call, which throws this or nothing, and catches what its statement catches.
    pub fn leave(
        &mut self,
        setup: &Setup,
        method: MethodNo,
        catch: Option<ClassNo>,
        thrown: Option<ClassNo>,
    )
        requires lines { 2 ≤ self.old.lines.spare }
        requires catch { IsClass setup.now.scenario catch }
        requires thrown { IsClass setup.now.scenario thrown }
        requires within { IsWithin setup.now.scenario self.old no_tokens }
        ensures goes { Comes setup.now.scenario self.old (λ st. finally (leaves method thrown st) (caught setup.now.scenario catch)) self.new }
        ensures sound { IsSound setup.now.scenario self.new (held self.new.stage) }
        ensures longer { IsLonger self.old self.new }
    {
        self.lines.push(Line::Leave { method, thrown });
        self.stage = match thrown {
            Some(class) if catches(setup, catch, class) => {
                self.lines.push(Line::Catch(class));
                Stage::Over(None)
            }
            _ => Stage::Over(thrown),
        };
    }

    /// Goes to the client's call at this place, or is done after the last.
    pub fn call_at(&mut self, setup: &Setup, number: u32, top: usize)
        requires client { number < length setup.now.scenario.clients }
        requires lines { 2 ≤ self.old.lines.spare }
        requires frames { 1 ≤ self.old.frames.spare }
        requires playable { IsPlayable setup.now.scenario }
        requires none { self.old.frames.items ≡ [] }
        requires bare { self.old.context ≡ bare }
        requires tokens { self.old.tokens ≡ no_tokens }
        requires top { top ≤ most_calls }
        ensures goes { GoesTo setup.now.scenario number (tops_from setup.now.scenario number top) self.old self.new }
        ensures sound { IsSound setup.now.scenario self.new (held self.new.stage) }
        ensures moves { MovesOn self.old self.new }
    {
        self.top = top;
        match setup.scenario.calls(number).get(top) {
            Some(method) => {
                self.lines.push(Line::Top(top as u32));
                self.call(setup, *method, None);
            }
            None => self.stage = Stage::Done,
        }
    }
}

// Whether a call's own `catch` catches this class.
fn catches(setup: &Setup, catch: Option<ClassNo>, thrown: ClassNo) -> bool
    requires catch { IsClass setup.now.scenario catch }
    requires thrown { thrown.0 < length setup.now.scenario.classes }
    ensures { result ≡ catches_in setup.now.scenario catch thrown }
{
    match catch {
        Some(caught) => setup.classes.is_below(thrown, caught),
        None => false,
    }
}

/// The attribute of a method: its own, or its bean's.
pub fn attribute_of(setup: &Setup, method: MethodNo) -> &TxAttr
    requires has { IsSome (attribute_in setup.now.scenario method) }
    ensures { result.now ≡ attribute_at setup.now.scenario method }
{
    match setup.attributes.of(method) {
        Some(attribute) => attribute,
        None => unreachable!(),
    }
}

//! What a line binds, and its answer.
ghost use Rattle.std.specs.Prelude.{◌≡◌, Some, IfOk, OnErr, length};
ghost use Rattle.std.specs.Result.{result_ok};
ghost use Rattle.serde_json.specs.View.{view, members_view};
ghost use Rattle.awk_store.specs.Buffers.{HoldsTexts, held_len, only_texts, texts_of, total_len};
ghost use Rattle.awk_types.specs.Names.{AreDistinct};
ghost use Rattle.awk_expr.specs.Allowed.{IsAllowed};
ghost use Rattle.awk_query.specs.AllowedLine.{IsAllowedLine};
ghost use Rattle.awk_query.specs.Line as lines;
ghost use Rattle.awk_query.specs.LineView.{line_view};
ghost use Rattle.awk_expr.specs.View.{expr_of};
ghost use Rattle.awk_eval.specs.Bindings as bindings;
ghost use Rattle.awk_eval.specs.Eval as meaning;
ghost use Rattle.awk_eval.specs.Variables.{denoted};
ghost use Rattle.awk_eval.specs.Views.{IsArray, IsWithin, view_of};
ghost use Rattle.awk_answer.specs.Answer as answers;
ghost use Rattle.awk_answer.specs.Shown as shown;
ghost use Rattle.awk_answer.specs.AnswerView.{answer_view, IsAnswer};
ghost use Rattle.awk_session.specs.Cost.{form_size};
ghost use Rattle.awk_load_line.specs.Load.{loaded, line_loaded};
ghost use Rattle.awk_load_line.specs.LoadCost.{IsLoaded};
ghost use Rattle.awk_framing.specs.Listed.{IsListed};
ghost use Rattle.awk_framing.specs.ReadView.{read_view};
ghost use Rattle.awk_plain.specs.Plain as plain;
ghost use Rattle.awk_session.specs.Replies as replies;
ghost use Rattle.awk_session.specs.Spending.{Binds, BindsBy, IsBoundUnless, IsViewWithin};
ghost use Rattle.awk_session.specs.Spending.{Takes, TakesBy, IsViewTaken};
ghost use Rattle.awk_session.specs.Spending.{Shows, ShowsBy, ShowsNone, ShowsView};
ghost use Rattle.awk_answer.specs.declared.fault.AnswerFault.TheVariants.{Evaluation};

use crate::state::Arenas;
use awk_answer::{Answer, AnswerFault, Refused, packed, type_text};
use awk_build::from_values;
use awk_eval::{Env, eval};
use awk_expr::Expr;
use awk_framing::Read;
use awk_lanes::{Arena, Steps};
use awk_layout::Datum;
use awk_load_line::{Head, cut_in, load, raw_store};
use awk_query::{Line, RawParts};
use awk_simd::Wide;
use awk_store::{Room, Store};
use awk_types::{Fault, Name, Names};
use serde_json::{Map, Value};
use std::alloc::{AllocError, Global};
use std::sync::ledger::Ledger;

/// Binds what a line with its raw bytes binds, in the arena that is kept or in the room, if there
/// is one, and gives its answer, which it does not put out. What is only shown lies in the other
/// arena.
pub fn reply<'v, 's, 'a: 's, L: Ledger>(
    env: &mut Env<'a>,
    read: &'v Read,
    raw: &[u8],
    room: Option<Room<'a>>,
    arenas: &Arenas<'a, 's>,
    steps: &mut Steps<L>,
) -> Result<Answer<'v, 's>, AllocError>
    requires allowed { IfOk (read_view read.now) IsAllowedLine }
    requires listed { IfOk (read_view read.now) IsListed }
    ensures reply { IfOk result (λ answer.
        replies.reply (denoted env.old) (read_view read.now) raw.now
        ≡ record { answer = answer_view answer; after = denoted env.new }) }
    ensures answer { IfOk result IsAnswer }
    ensures same { OnErr result (env.new ≡ env.old) }
    ensures binds { IfOk result (λ a. Binds (result_ok (read_view read.now))
        (answers.is_fault (answer_view a)) env.old env.new) }
    ensures shows { IfOk result (Shows env.old (result_ok (read_view read.now))) }
    ensures cost { Takes env.old (result_ok (read_view read.now)) (length raw.now)
        steps.old steps.new }
{
    match read {
        Read::Line(line) => reply_line(env, line, raw, room, arenas, steps),
        Read::Json => Ok(Answer::Fault(AnswerFault::Json)),
        Read::Query => Ok(Answer::Fault(AnswerFault::Query)),
    }
}

// The same of a line that was read.
fn reply_line<'v, 's, 'a: 's, L: Ledger>(
    env: &mut Env<'a>,
    line: &'v Line,
    raw: &[u8],
    room: Option<Room<'a>>,
    arenas: &Arenas<'a, 's>,
    steps: &mut Steps<L>,
) -> Result<Answer<'v, 's>, AllocError>
    requires allowed { IsAllowedLine (line_view line.now) }
    requires listed { IsListed (line_view line.now) }
    ensures reply { IfOk result (λ answer.
        replies.reply_line (denoted env.old) (line_view line.now) raw.now
        ≡ record { answer = answer_view answer; after = denoted env.new }) }
    ensures answer { IfOk result IsAnswer }
    ensures same { OnErr result (env.new ≡ env.old) }
    ensures binds { IfOk result (λ a. BindsBy (line_view line.now)
        (answers.is_fault (answer_view a)) env.old env.new) }
    ensures shows { IfOk result (ShowsBy env.old (line_view line.now)) }
    ensures cost { TakesBy env.old (line_view line.now) (length raw.now) steps.old steps.new }
{
    let alloc = arenas.alloc;
    let kept = arenas.kept;
    let arena = arenas.scratch;
    match line {
        Line::Load {
            name,
            form,
            length,
            big,
            buffers,
        } => {
            let head = Head {
                name,
                form,
                length: *length,
                big: *big,
            };
            bind_texts(alloc, env, &head, buffers, room, kept, steps)
        }
        Line::LoadRaw {
            name,
            form,
            length,
            big,
            parts,
        } => {
            let head = Head {
                name,
                form,
                length: *length,
                big: *big,
            };
            bind_raw(alloc, env, &head, parts, raw, kept, steps)
        }
        Line::Session => Ok(Answer::Session),
        Line::Let { name, be } => bind_made(alloc, env, name, be, kept, steps),
        Line::Values { name, from } => bind_values(alloc, env, name, from, kept, steps),
        Line::Show(e) => show(alloc, env, e, arena, steps),
        Line::TypeOf(e) => show_type(alloc, env, e, arena, steps),
        Line::Pack(e) => show_packed(alloc, env, e, arena, steps),
        Line::Names => Ok(Answer::Names(names_of(alloc, env)?)),
    }
}

// Binds a name to what a load line loads, if it loads. Its buffers are those of the store.
fn bind_loaded<'v, 's, 'a: 's, L: Ledger>(
    alloc: Global,
    env: &mut Env<'a>,
    head: &Head<'v>,
    store: &mut Store<'_, 'a>,
    kept: &'a Arena,
    steps: &mut Steps<L>,
) -> Result<Answer<'v, 's>, AllocError>
    ensures reply { IfOk result (λ answer.
        replies.reply_bind (denoted env.old) head.now.name.now
        (loaded (view head.now.form.now) head.now.length head.now.big store.old.held)
        ≡ record { answer = answer_view answer; after = denoted env.new }) }
    ensures answer { IfOk result IsAnswer }
    ensures same { OnErr result (env.new ≡ env.old) }
    ensures binds { IfOk result (λ a. IsBoundUnless (answers.is_fault (answer_view a))
        head.now.name.now (IsWithin (form_size (view head.now.form.now))) env.old env.new) }
    ensures shows { IfOk result ShowsNone }
    ensures cost { IsLoaded (view head.now.form.now) (held_len store.old.held) steps.old steps.new }
{
    let name = head.name;
    match load(alloc, head, store, kept, steps) {
        Ok(array) => {
            env.bind(name.copy(alloc)?, Datum::Arr(array))?;
            Ok(Answer::Bound(name.as_str()))
        }
        Err(Refused::Told(fault)) => Ok(Answer::Fault(fault)),
        Err(Refused::NoMemory) => Err(AllocError),
    }
}

// The same of a load line whose buffers are given as texts. The bytes of a long one may lie in the
// room.
fn bind_texts<'v, 's, 'a: 's, L: Ledger>(
    alloc: Global,
    env: &mut Env<'a>,
    head: &Head<'v>,
    buffers: &Map<String, Value>,
    room: Option<Room<'a>>,
    kept: &'a Arena,
    steps: &mut Steps<L>,
) -> Result<Answer<'v, 's>, AllocError>
    requires texts { HoldsTexts (members_view buffers.now.entries) }
    ensures reply { let texts = texts_of (members_view buffers.now.entries) in
        IfOk result (λ answer. replies.reply_bind (denoted env.old) head.now.name.now
        (loaded (view head.now.form.now) head.now.length head.now.big (only_texts texts))
        ≡ record { answer = answer_view answer; after = denoted env.new }) }
    ensures answer { IfOk result IsAnswer }
    ensures same { OnErr result (env.new ≡ env.old) }
    ensures binds { IfOk result (λ a. IsBoundUnless (answers.is_fault (answer_view a))
        head.now.name.now (IsWithin (form_size (view head.now.form.now))) env.old env.new) }
    ensures shows { IfOk result ShowsNone }
    ensures cost { let texts = texts_of (members_view buffers.now.entries) in
        IsLoaded (view head.now.form.now) (total_len texts) steps.old steps.new }
{
    let mut store = Store::with_room(alloc, buffers, room, kept);
    bind_loaded(alloc, env, head, &mut store, kept, steps)
}

// The same of a load line whose buffers are the raw bytes behind it, if they are all there.
fn bind_raw<'v, 's, 'a: 's, L: Ledger>(
    alloc: Global,
    env: &mut Env<'a>,
    head: &Head<'v>,
    parts: &RawParts,
    raw: &[u8],
    kept: &'a Arena,
    steps: &mut Steps<L>,
) -> Result<Answer<'v, 's>, AllocError>
    requires apart { AreDistinct (lines.keys_of parts.now) }
    ensures reply { IfOk result (λ answer.
        replies.reply_bind (denoted env.old) head.now.name.now (line_loaded
        (view head.now.form.now) head.now.length head.now.big (lines.parts parts.now) raw.now)
        ≡ record { answer = answer_view answer; after = denoted env.new }) }
    ensures answer { IfOk result IsAnswer }
    ensures same { OnErr result (env.new ≡ env.old) }
    ensures binds { IfOk result (λ a. IsBoundUnless (answers.is_fault (answer_view a))
        head.now.name.now (IsWithin (form_size (view head.now.form.now))) env.old env.new) }
    ensures shows { IfOk result ShowsNone }
    ensures cost { IsLoaded (view head.now.form.now) (length raw.now) steps.old steps.new }
{
    if let Some(key) = cut_in(parts, raw) {
        let key = Name::new(alloc, key)?;
        return Ok(Answer::Fault(AnswerFault::Cut { key }));
    }
    let mut store = raw_store(alloc, parts, raw, kept)?;
    bind_loaded(alloc, env, head, &mut store, kept, steps)
}

// Binds a name to what an expression is, if it is something.
fn bind_made<'v, 's, 'a: 's, L: Ledger>(
    alloc: Global,
    env: &mut Env<'a>,
    name: &'v Name,
    e: &Expr,
    kept: &'a Arena,
    steps: &mut Steps<L>,
) -> Result<Answer<'v, 's>, AllocError>
    requires allowed { IsAllowed (expr_of e.now) }
    ensures reply { IfOk result (λ answer.
        replies.reply_bind (denoted env.old) name.now
        (replies.evaluated (meaning.eval (denoted env.old) (expr_of e.now)))
        ≡ record { answer = answer_view answer; after = denoted env.new }) }
    ensures answer { IfOk result IsAnswer }
    ensures same { OnErr result (env.new ≡ env.old) }
    ensures binds { IfOk result (λ a. IsBoundUnless (answers.is_fault (answer_view a)) name.now
        (IsViewWithin env.old (view_of (expr_of e.now))) env.old env.new) }
    ensures shows { IfOk result ShowsNone }
    ensures cost { IsViewTaken env.old (view_of (expr_of e.now)) steps.old steps.new }
{
    match eval(alloc, env, e, &Wide, kept, steps) {
        Ok(datum) => {
            env.bind(name.copy(alloc)?, datum)?;
            Ok(Answer::Bound(name.as_str()))
        }
        Err(why) => refused(why),
    }
}

// Binds a name to the array of a JSON list, if it has one.
fn bind_values<'v, 's, 'a: 's, L: Ledger>(
    alloc: Global,
    env: &mut Env<'a>,
    name: &'v Name,
    list: &Value,
    kept: &'a Arena,
    steps: &mut Steps<L>,
) -> Result<Answer<'v, 's>, AllocError>
    requires listed { lines.if_list (view list.now) ≡ Some (view list.now) }
    ensures reply { IfOk result (λ answer. replies.reply_bind (denoted env.old) name.now
        (replies.evaluated (plain.from_values (view list.now)))
        ≡ record { answer = answer_view answer; after = denoted env.new }) }
    ensures answer { IfOk result IsAnswer }
    ensures same { OnErr result (env.new ≡ env.old) }
    ensures binds { IfOk result (λ a. IsBoundUnless (answers.is_fault (answer_view a)) name.now
        (λ d. IsArray (Some d)) env.old env.new) }
    ensures shows { IfOk result ShowsNone }
{
    match from_values(alloc, list, kept, steps) {
        Ok(array) => {
            env.bind(name.copy(alloc)?, Datum::Arr(array))?;
            Ok(Answer::Bound(name.as_str()))
        }
        Err(fault) => refused(fault),
    }
}

// The value of an expression, or its fault.
fn show<'v, 's, 'a: 's, L: Ledger>(
    alloc: Global,
    env: &Env<'a>,
    e: &Expr,
    arena: &'s Arena,
    steps: &mut Steps<L>,
) -> Result<Answer<'v, 's>, AllocError>
    requires allowed { IsAllowed (expr_of e.now) }
    ensures shown { IfOk result (λ answer. answer_view answer
        ≡ replies.telling answers.value (meaning.eval (denoted env.now) (expr_of e.now))) }
    ensures answer { IfOk result IsAnswer }
    ensures shows { IfOk result (ShowsView env.now (view_of (expr_of e.now))) }
    ensures cost { IsViewTaken env.now (view_of (expr_of e.now)) steps.old steps.new }
{
    match eval(alloc, env, e, &Wide, arena, steps) {
        Ok(datum) => Ok(Answer::Value(datum)),
        Err(fault) => refused(fault),
    }
}

// The type of an expression, or its fault.
fn show_type<'v, 's, 'a: 's, L: Ledger>(
    alloc: Global,
    env: &Env<'a>,
    e: &Expr,
    arena: &'s Arena,
    steps: &mut Steps<L>,
) -> Result<Answer<'v, 's>, AllocError>
    requires allowed { IsAllowed (expr_of e.now) }
    ensures shown { IfOk result (λ answer. answer_view answer ≡ replies.telling
        shown.type_shown (meaning.eval (denoted env.now) (expr_of e.now))) }
    ensures answer { IfOk result IsAnswer }
    ensures shows { IfOk result ShowsNone }
    ensures cost { IsViewTaken env.now (view_of (expr_of e.now)) steps.old steps.new }
{
    match eval(alloc, env, e, &Wide, arena, steps) {
        Ok(datum) => Ok(Answer::Type(type_text(alloc, &datum)?)),
        Err(fault) => refused(fault),
    }
}

// The packed buffers of an expression, or its fault.
fn show_packed<'v, 's, 'a: 's, L: Ledger>(
    alloc: Global,
    env: &Env<'a>,
    e: &Expr,
    arena: &'s Arena,
    steps: &mut Steps<L>,
) -> Result<Answer<'v, 's>, AllocError>
    requires allowed { IsAllowed (expr_of e.now) }
    ensures shown { IfOk result (λ answer. answer_view answer ≡ replies.telling
        shown.pack_shown (meaning.eval (denoted env.now) (expr_of e.now))) }
    ensures answer { IfOk result IsAnswer }
{
    match eval(alloc, env, e, &Wide, arena, steps) {
        Ok(datum) => packed(alloc, &datum, arena, steps),
        Err(fault) => refused(fault),
    }
}

// A fault as an answer, unless memory is wanting.
fn refused<'v, 's>(fault: Fault) -> Result<Answer<'v, 's>, AllocError>
    ensures told { IfOk result (λ answer. answer_view answer ≡ answers.fault (Evaluation fault)) }
    ensures answer { IfOk result IsAnswer }
    ensures shows { IfOk result ShowsNone }
    ensures memory { OnErr result (fault ≡ Fault.NoMemory) }
{
    match fault {
        Fault::NoMemory => Err(AllocError),
        fault => Ok(Answer::Fault(AnswerFault::Evaluation(fault))),
    }
}

// The bound names, in order of first binding.
fn names_of(alloc: Global, env: &Env<'_>) -> Result<Names, AllocError>
    ensures { IfOk result (λ names. names ≡ bindings.names (denoted env.now)) }
{
    let mut names = Names::new(alloc);
    let count = env.len();
    for i in 0..count {
        names.push(Name::new(alloc, env.name_at(i))?)?;
    }
    Ok(names)
}

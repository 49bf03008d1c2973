//! The queues of a chart or a diagram, by the architecture and the rules of a command line, and by
//! what the text itself says of them.

ghost use Rattle.std.specs.Prelude.{◌≡◌, ◌≤◌, ◌++◌, IfOk, MatchResult, OnOk, length, map};
ghost use Rattle.msc_chart.specs.Faults.{IsFaultless};
ghost use Rattle.msc_answer.specs.Charting.{AreCharts};
ghost use Rattle.msc_links.specs.Rules.{AreRuled, IsRulesFault};
ghost use Rattle.msc_answer.specs.Drawing.{drawn_under, usual_drawn};
ghost use Rattle.msc_answer.specs.Linked.{has_none, own_name, ruled_by, rules_in};
ghost use Rattle.msc_answer.specs.Linked.{seen_rules, shown_name, under, usual_in, AreNamesIn};
ghost use Rattle.msc_answer.specs.Linked.{AreNamesOf, IsLinked, IsLinkedAt, IsLinkedIn};
ghost use Rattle.msc_answer.specs.Linked.{IsLinkedBy, IsRuledBy, IsRuledWith, IsRuledWithout};
ghost use Rattle.msc_answer.specs.Linked.{OfRules};
ghost use Rattle.msc_answer.specs.Own.{SaysIf, SaysInChart, ShowsInChart, ShowsInDiagram, said_in};

use crate::ending::Refusal;
use crate::importing::chart_of;
use crate::own::{LinkRefusal, OwnComment, bytes_at, own_of_chart, own_of_diagram};
use crate::tasks::{
    ChartCommand, CheckArgs, Drawn, ExplainArgs, FollowArgs, LinkWords, QuietArgs, ReadyArgs,
    ReverseArgs,
};
use crate::text_chart::TextChart;
use msc_chart::{Chart, INSTANCE_LIMIT, LinkKind, Queues};
use msc_import::{Drawings, Scenario, TextSpans};
use msc_links::{LineNames, Rule, RulesFault, queues_of};
use msc_mermaid::Span;
use std::alloc::{AllocError, Global};

/// Appends a rule of this kind for each of these links.
fn put_rules<'w>(
    rules: &mut Vec<Rule<'w>>,
    kind: LinkKind,
    links: &[&'w str],
) -> Result<(), AllocError>
    ensures { OnOk result (seen_rules rules.new.items
        ≡ seen_rules rules.old.items ++ ruled_by kind (map (λ link. link.now) links.now)) }
{
    for link in links {
        rules.push(Rule {
            kind,
            link: link.as_bytes(),
        })?;
    }
    Ok(())
}

/// The rules of a command line: those for pairs, then those for mailboxes and for single links.
fn rules_in<'w>(alloc: Global, words: LinkWords<'w>) -> Result<Vec<Rule<'w>>, AllocError>
    ensures { IfOk result (λ rules. seen_rules rules.items ≡ rules_in words.entry) }
{
    let mut rules = Vec::new(alloc);
    put_rules(&mut rules, LinkKind::Pair, words.pairs)?;
    put_rules(&mut rules, LinkKind::Mailbox, words.mailboxes)?;
    put_rules(&mut rules, LinkKind::Single, words.singles)?;
    Ok(rules)
}

/// The names of a chart's lines: those of its instances.
pub fn names_in<'c>(alloc: Global, chart: &'c Chart) -> Result<Vec<LineNames<'c>>, AllocError>
    ensures { IfOk result (λ names. AreNamesIn chart.entry.now names.items) }
{
    let mut names = Vec::new(alloc);
    for i in 0..chart.instances() {
        let name = chart.instance_name(i);
        names.push(LineNames {
            own: name,
            shown: name,
            made: name,
        })?;
    }
    Ok(names)
}

/// The queues that rules of a text and of a command line give for lines with these names, or their
/// first fault. An error is a growth of memory that was refused.
fn ruled<'w>(
    alloc: Global,
    usual: LinkKind,
    text: &[Rule<'w>],
    words: LinkWords<'w>,
    names: &[LineNames<'_>],
) -> Result<Result<Queues, RulesFault<'w>>, AllocError>
    requires { length names.now ≤ INSTANCE_LIMIT }
    ensures { IfOk result (λ answer. OfRules words.entry (λ given. MatchResult answer
        (AreRuled usual text.now given names.now) (IsRulesFault text.now given names.now))) }
{
    let rules = rules_in(alloc, words)?;
    Ok(queues_of(usual, text, rules.as_slice(), names))
}

/// The queues of lines with these names, if the text names none.
fn queues_without<'w>(
    alloc: Global,
    usual: LinkKind,
    words: LinkWords<'w>,
    names: &[LineNames<'_>],
) -> Result<Queues, Refusal<'w>>
    requires { length names.now ≤ INSTANCE_LIMIT }
    ensures { IsRuledWithout usual words.entry names.now result }
{
    match ruled(alloc, usual, &[], words, names)? {
        Ok(queues) => Ok(queues),
        Err(RulesFault::Text(fault)) => Err(Refusal::Link(LinkRefusal::Given(fault))),
        Err(RulesFault::Given(fault)) => Err(Refusal::Link(LinkRefusal::Given(fault))),
    }
}

/// The queues of lines with these names, if the text names queues.
fn queues_with<'w>(
    alloc: Global,
    own: &OwnComment<'w>,
    words: LinkWords<'w>,
    names: &[LineNames<'_>],
) -> Result<Queues, Refusal<'w>>
    requires { length names.now ≤ INSTANCE_LIMIT }
    ensures { IsRuledWith own.now words.entry names.now result }
{
    let text = own.queues.rules.as_slice();
    match ruled(alloc, own.queues.usual, text, words, names)? {
        Ok(queues) => Ok(queues),
        Err(RulesFault::Text(fault)) => Err(Refusal::Link(LinkRefusal::Text(fault, own.place))),
        Err(RulesFault::Given(fault)) => Err(Refusal::Link(LinkRefusal::Given(fault))),
    }
}

/// The queues of lines with these names, by what the text says of them.
fn queues_by<'w>(
    alloc: Global,
    usual: LinkKind,
    own: Option<OwnComment<'w>>,
    words: LinkWords<'w>,
    names: &[LineNames<'_>],
) -> Result<Queues, Refusal<'w>>
    requires { length names.now ≤ INSTANCE_LIMIT }
    ensures { IsRuledBy usual own.entry words.entry names.now result }
{
    match own {
        None => queues_without(alloc, usual, words, names),
        Some(own) => queues_with(alloc, &own, words, names),
    }
}

/// The queues of the chart of a text.
fn queues_of_chart<'w>(
    alloc: Global,
    usual: LinkKind,
    words: LinkWords<'w>,
    text: &'w [u8],
    chart: &Chart,
) -> Result<Queues, Refusal<'w>>
    ensures { IsLinkedBy (SaysIf words.entry.own (SaysInChart text.entry.now))
        (ShowsInChart text.entry.now) (AreNamesIn chart.now) usual words.entry result }
{
    chart.facts();
    let own = own_of_chart(alloc, words.own, text)?;
    let names = names_in(alloc, chart)?;
    queues_by(alloc, usual, own, words, names.as_slice())
}

/// The name by which a text calls line `i`.
fn own_name<'t>(text: &'t [u8], names: &[Span], i: usize) -> &'t [u8]
    ensures { result.now ≡ own_name text.entry.now names.now i }
{
    match names.get(i) {
        Some(span) => bytes_at(text, *span),
        None => b"",
    }
}

/// The name with which a text shows line `i`: its own, if it has no other.
fn shown_name<'t>(text: &'t [u8], spans: &TextSpans, i: usize) -> &'t [u8]
    ensures { result.now ≡ shown_name text.entry.now spans.now i }
{
    match spans.shown.as_slice().get(i) {
        Some(Some(span)) => bytes_at(text, *span),
        _ => own_name(text, spans.names.as_slice(), i),
    }
}

/// The names of a diagram's lines, by one of its scenarios and the chart of this: those of the text
/// and those of the chart's instances.
pub fn names_of<'n>(
    alloc: Global,
    text: &'n [u8],
    spans: &TextSpans,
    chart: &'n Chart,
) -> Result<Vec<LineNames<'n>>, AllocError>
    ensures { IfOk result (λ names.
        AreNamesOf text.entry.now spans.now chart.entry.now names.items) }
{
    let mut names = Vec::new(alloc);
    for i in 0..chart.instances() {
        names.push(LineNames {
            own: own_name(text, spans.names.as_slice(), i as usize),
            shown: shown_name(text, spans, i as usize),
            made: chart.instance_name(i),
        })?;
    }
    Ok(names)
}

/// The queues of a diagram by the places of its names and the chart of a scenario.
pub fn queues_at<'w>(
    alloc: Global,
    usual: LinkKind,
    words: LinkWords<'w>,
    text: &'w [u8],
    spans: &TextSpans,
    chart: &Chart,
) -> Result<Queues, Refusal<'w>>
    ensures { IsLinkedBy
        (SaysIf words.entry.own (λ said. said ≡ said_in text.entry.now spans.now.comments))
        (ShowsInDiagram text.entry.now) (AreNamesOf text.entry.now spans.now chart.now)
        usual words.entry result }
{
    chart.facts();
    let own = own_of_diagram(alloc, words.own, text, spans)?;
    let names = names_of(alloc, text, spans, chart)?;
    queues_by(alloc, usual, own, words, names.as_slice())
}

/// The queues of the chart of a text: links that no rule names are of the usual kind.
pub fn queues_in<'w>(
    alloc: Global,
    usual: LinkKind,
    words: LinkWords<'w>,
    source: &TextChart<'w, '_>,
) -> Result<Queues, Refusal<'w>>
    ensures { IsLinked usual words.entry source.now result }
{
    let (text, chart) = (source.text(), source.chart());
    match source.imported() {
        None => queues_of_chart(alloc, usual, words, text, chart),
        Some(imported) => queues_at(alloc, usual, words, text, &imported.spans, chart),
    }
}

/// The queues of a diagram of which this is a scenario.
fn queues_of_drawn<'w>(
    alloc: Global,
    usual: LinkKind,
    words: LinkWords<'w>,
    text: &'w [u8],
    drawn: &Scenario,
) -> Result<Queues, Refusal<'w>>
    requires { IsFaultless drawn.now.draft }
    ensures { IsLinkedAt usual words.entry text.entry.now drawn.now result }
{
    let chart = chart_of(alloc, &drawn.draft)?;
    queues_at(alloc, usual, words, text, &drawn.spans, &chart)
}

/// The queues of a diagram with these scenarios: links that no rule names are of the usual kind.
/// All scenarios have the same lines.
pub(crate) fn queues_of_diagram<'w>(
    alloc: Global,
    usual: LinkKind,
    words: LinkWords<'w>,
    text: &'w [u8],
    scenarios: &Drawings<'_>,
) -> Result<Queues, Refusal<'w>>
    requires { AreCharts scenarios.now }
    ensures { IsLinkedIn usual words.entry text.entry.now scenarios.now result }
{
    if has_none(words) || scenarios.len() == 0 {
        return Ok(Queues::Uniform(usual));
    }
    let drawn = scenarios.scenario(alloc, 0)?;
    queues_of_drawn(alloc, usual, words, text, &drawn)
}

/// Whether there are no rules, and the text is not asked for its own.
fn has_none(words: LinkWords<'_>) -> bool
    ensures { result ≡ has_none words.entry }
{
    !words.own && words.pairs.is_empty() && words.mailboxes.is_empty() && words.singles.is_empty()
}

impl<'w> ChartCommand<'w> {
    /// The kind of the links that no rule names.
    pub(crate) fn usual(self) -> LinkKind
        ensures { result ≡ usual_in self.entry }
    {
        match self {
            ChartCommand::Check(args) => args.queues.usual(),
            ChartCommand::Quiet(args) => args.queues.usual(),
            ChartCommand::Explain(args) => args.queues.usual(),
            ChartCommand::Follow(args) => args.queues.usual(),
            ChartCommand::Run(queues, _) => queues.usual(),
            ChartCommand::List(_) => LinkKind::Pair,
            ChartCommand::Ready(args) => args.queues.usual(),
        }
    }

    /// The same command under another architecture.
    pub(crate) fn under(self, queues: Queues) -> ChartCommand<'w>
        ensures { result ≡ under queues self.entry }
    {
        match self {
            ChartCommand::Check(args) => ChartCommand::Check(CheckArgs { queues, ..args }),
            ChartCommand::Quiet(args) => ChartCommand::Quiet(QuietArgs { queues, ..args }),
            ChartCommand::Explain(args) => ChartCommand::Explain(ExplainArgs { queues, ..args }),
            ChartCommand::Follow(args) => ChartCommand::Follow(FollowArgs { queues, ..args }),
            ChartCommand::Run(_, patience) => ChartCommand::Run(queues, patience),
            ChartCommand::List(placed) => ChartCommand::List(placed),
            ChartCommand::Ready(args) => ChartCommand::Ready(ReadyArgs { queues, ..args }),
        }
    }
}

impl Drawn {
    /// The kind of the links that no rule names.
    pub(crate) fn usual(self) -> LinkKind
        ensures { result ≡ usual_drawn self }
    {
        match self {
            Drawn::Chart(None, _) => LinkKind::Pair,
            Drawn::Chart(Some(queues), _) => queues.usual(),
            Drawn::Run(reversing) => reversing.queues.usual(),
            Drawn::Report(queues) => queues.usual(),
        }
    }

    /// The same under another architecture; a chart that is drawn without one stays without one.
    pub(crate) fn under(self, queues: Queues) -> Drawn
        ensures { result ≡ drawn_under queues self }
    {
        match self {
            Drawn::Chart(None, format) => Drawn::Chart(None, format),
            Drawn::Chart(Some(_), format) => Drawn::Chart(Some(queues), format),
            Drawn::Run(reversing) => Drawn::Run(ReverseArgs {
                queues,
                ..reversing
            }),
            Drawn::Report(_) => Drawn::Report(queues),
        }
    }
}

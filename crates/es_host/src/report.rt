//! What the rules of a kit say.
ghost use Rattle.std.specs.Prelude.{ℕ, ◌≡◌, ◌<◌, ◌≤◌, ◌^◌, List, [], ◌++◌, length, map, IfOk, OnOk, IsTrue};
ghost use Rattle.std.specs.Str.{chars};
ghost use Rattle.es_text.specs.Texts.{text_bytes};
ghost use Rattle.es_settings.specs.Settings.{options_of, setting_of};
ghost use Rattle.es_host.specs.Files.{IsWhole, file_of, rows_in};
ghost use Rattle.es_host.specs.Hearing.{EachHeard, events_of};
ghost use Rattle.es_host.specs.Lawful.{told};
ghost use Rattle.es_host.specs.Meanings.{Fits, is_on};
ghost use Rattle.es_host.specs.Reports.{kit_says, report_of, said_at};
ghost use Rattle.es_host.specs.Spans.{fixes_fit, reports_fit};
ghost use Rattle.es_host.specs.Walk.{walk};

use crate::file::Ctx;
use crate::rule::Rule;
use es_settings::RuleSetting;
use es_text::{Finding, NoMemory, Report, Severity, Txt};
use std::alloc::Global;

/// Puts the findings of the rule of this id, which stands at this place, behind the reports.
fn add_reports(
    alloc: Global,
    id: &str,
    place: u32,
    severity: Severity,
    findings: Vec<Finding>,
    reports: &mut Vec<Report>,
) -> Result<(), NoMemory>
    ensures { OnOk result
        (reports.new.items
        ≡ reports.old.items ++ map (report_of (chars id.now) place severity) findings.items) }
{
    for finding in findings {
        let Finding { span, text, fix } = finding;
        reports.push(Report {
            rule: Some(Txt::new(alloc, id)?),
            order: place,
            severity,
            text,
            span,
            fix,
            fatal: false,
        })?;
    }
    Ok(())
}

/// Puts what a rule that heard the whole walk says behind the reports, if it is on.
fn report_one<R: Rule>(
    alloc: Global,
    ctx: &Ctx,
    setting: &RuleSetting,
    rule: &mut R,
    place: u32,
    reports: &mut Vec<Report>,
) -> Result<(), NoMemory>
    requires whole { IsWhole (file_of ctx.now) }
    requires ancestors { ctx.now.ancestors.now ≡ [] }
    requires heard { IsTrue (is_on (setting_of setting.now)) →
        R.heard rule.old (file_of ctx.now) (options_of setting.now.options) (told (rows_in (file_of ctx.now))
        ((R.meaning rule.old).interest (options_of setting.now.options)) (walk (rows_in (file_of ctx.now)))) }
    ensures same { R.meaning rule.new ≡ R.meaning rule.old }
    ensures reports { OnOk result (reports.new.items ≡ reports.old.items
        ++ said_at (R.meaning rule.old).id place setting.now.severity
        ((R.meaning rule.old).says (file_of ctx.now) (options_of setting.now.options))) }
    ensures inside { OnOk result (IsTrue (reports_fit (text_bytes (file_of ctx.now).text) reports.old.items)
        → IsTrue (reports_fit (text_bytes (file_of ctx.now).text) reports.new.items)) }
    ensures fixes { OnOk result (IsTrue (fixes_fit (text_bytes (file_of ctx.now).text) reports.old.items)
        → IsTrue (fixes_fit (text_bytes (file_of ctx.now).text) reports.new.items)) }
{
    let Some(severity) = setting.severity else {
        return Ok(());
    };
    let findings = rule.finish(alloc, ctx)?;
    add_reports(alloc, rule.id(), place, severity, findings, reports)?;
    Ok(())
}

/// The reports of rules that heard the whole walk.
pub fn report_all<R: Rule>(
    alloc: Global,
    ctx: &Ctx,
    rules: &mut [R],
) -> Result<Vec<Report>, NoMemory>
    requires whole { IsWhole (file_of ctx.now) }
    requires ancestors { ctx.now.ancestors.now ≡ [] }
    requires few { length rules.old < 2 ^ 32 }
    requires fits { Fits (map R.meaning rules.old) (file_of ctx.now) }
    requires heard { EachHeard R.heard (file_of ctx.now)
        (events_of (map R.meaning rules.old) (file_of ctx.now) (walk (rows_in (file_of ctx.now)))) rules.old }
    ensures same { map R.meaning rules.new ≡ map R.meaning rules.old }
    ensures reports { IfOk result (λ reports. reports.items ≡ kit_says (map R.meaning rules.old) (file_of ctx.now)) }
    ensures inside { IfOk result (λ reports. IsTrue (reports_fit (text_bytes (file_of ctx.now).text) reports.items)) }
    ensures fixes { IfOk result (λ reports. IsTrue (fixes_fit (text_bytes (file_of ctx.now).text) reports.items)) }
{
    let settings = ctx.file.config.rules.as_slice();
    let mut reports = Vec::new(alloc);
    for place in 0..rules.len() {
        report_one(
            alloc,
            ctx,
            &settings[place],
            &mut rules[place],
            place as u32,
            &mut reports,
        )?;
    }
    Ok(reports)
}

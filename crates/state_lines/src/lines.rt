//! The lines of a state, each added to a text.

ghost use Rattle.std.specs.Prelude.{◌≡◌, ◌++◌, OnOk, string_bytes};
ghost use Rattle.state_lines.specs.Lines.{entry_line, page_line, life_line, tdcs_line, tdcs_text, vcpu_line, stream_line, content_text, page_text, done_line, is_of_td, holder_text, held_line, guest_line, access_text, cached_line};

use crate::seen::{Content, Holder, StreamSeen, TdSeen, TdcsSeen, VcpuSeen};
use field_lines::{Field, Form, Value, push_line};
use pamt_core::PamtWord;
use sept_entry::Entry;
use std::alloc::{AllocError, Global};
use td_words::{LifeState, LockName, Mode, PageKind};

fn push_page_line(
    alloc: Global,
    text: &mut String,
    form: Form,
    page: u16,
    pamt: &PamtWord,
) -> Result<(), AllocError>
    ensures { OnOk result (string_bytes text.new ≡ string_bytes text.old ++ page_line form page pamt.now) }
{
    let PamtWord { kind, owner, epoch } = *pamt;
    let page = Field("page ", "page", Value::Number(page as u64));
    let kind = Field(" ", "kind", Value::Kind(kind));
    let owner = Field(" of ", "td", Value::Number(owner as u64));
    if epoch == 0 {
        push_line(alloc, text, form, "page", &[page, kind, owner])
    } else {
        let epoch = Field(" BEPOCH ", "bepoch", Value::Number(epoch as u64));
        push_line(alloc, text, form, "page", &[page, kind, owner, epoch])
    }
}

fn push_life(
    alloc: Global,
    text: &mut String,
    form: Form,
    tdr: u16,
    td: &TdSeen,
) -> Result<(), AllocError>
    ensures { OnOk result (string_bytes text.new ≡ string_bytes text.old ++ life_line form tdr td.now.life td.now.hkid td.now.children) }
{
    let TdSeen {
        life,
        hkid,
        children,
        tdcs: _,
    } = *td;
    let tdr = Field("td ", "td", Value::Number(tdr as u64));
    let state = Field(" ", "life", Value::Life(life));
    let children = Field(" children ", "children", Value::Number(children));
    match life {
        LifeState::Teardown => push_line(alloc, text, form, "td", &[tdr, state, children]),
        _ => {
            let hkid = Field(" HKID ", "hkid", Value::Number(hkid));
            push_line(alloc, text, form, "td", &[tdr, state, hkid, children])
        }
    }
}

fn push_tdcs(
    alloc: Global,
    text: &mut String,
    form: Form,
    tdr: u16,
    tdcs: &TdcsSeen,
) -> Result<(), AllocError>
    ensures { OnOk result (string_bytes text.new ≡ string_bytes text.old ++ tdcs_line form tdr tdcs.now) }
{
    push_line(
        alloc,
        text,
        form,
        "tdcs",
        &[
            Field("td ", "td", Value::Number(tdr as u64)),
            Field(" TDCS ", "page", Value::Number(tdcs.page)),
            Field(" ", "op", Value::Op(tdcs.op)),
            Field(" TD_EPOCH ", "td_epoch", Value::Number(tdcs.epoch)),
            Field(" in guest ", "in_guest", Value::Number(tdcs.entered)),
            Field(
                " before ",
                "in_guest_before",
                Value::Number(tdcs.entered_before),
            ),
            Field(" vcpus ", "vcpus", Value::Number(tdcs.vcpus)),
            Field(" streams ", "streams", Value::Number(tdcs.streams)),
            Field(" session ", "session", Value::Number(tdcs.session)),
            Field(" epoch ", "migration_epoch", Value::Number(tdcs.mig_epoch)),
        ],
    )
}

fn push_td(
    alloc: Global,
    text: &mut String,
    form: Form,
    tdr: u16,
    td: &TdSeen,
) -> Result<(), AllocError>
    ensures { OnOk result (string_bytes text.new ≡ string_bytes text.old ++ (life_line form tdr td.now.life td.now.hkid td.now.children ++ tdcs_text form tdr td.now.tdcs)) }
{
    push_life(alloc, text, form, tdr, td)?;
    match &td.tdcs {
        Some(tdcs) => push_tdcs(alloc, text, form, tdr, tdcs),
        None => Ok(()),
    }
}

fn push_vcpu(
    alloc: Global,
    text: &mut String,
    form: Form,
    vp: u16,
    vcpu: &VcpuSeen,
) -> Result<(), AllocError>
    ensures { OnOk result (string_bytes text.new ≡ string_bytes text.old ++ vcpu_line form vp vcpu.now vcpu.now.associated) }
{
    let VcpuSeen {
        index,
        state,
        position,
        associated,
        last_epoch,
    } = *vcpu;
    let vp = Field("vcpu ", "vcpu", Value::Number(vp as u64));
    let index = Field(" index ", "index", Value::Number(index));
    let state = Field(" ", "state", Value::Vcpu(state));
    let position = Field(" position ", "position", Value::Number(position));
    match associated {
        None => push_line(alloc, text, form, "vcpu", &[vp, index, state, position]),
        Some(lp) => {
            let lp = Field(" lp ", "processor", Value::Number(lp));
            let epoch = Field(" TD_EPOCH ", "td_epoch", Value::Number(last_epoch));
            push_line(
                alloc,
                text,
                form,
                "vcpu",
                &[vp, index, state, position, lp, epoch],
            )
        }
    }
}

fn push_stream(
    alloc: Global,
    text: &mut String,
    form: Form,
    page: u16,
    stream: &StreamSeen,
) -> Result<(), AllocError>
    ensures { OnOk result (string_bytes text.new ≡ string_bytes text.old ++ stream_line form page stream.now) }
{
    push_line(
        alloc,
        text,
        form,
        "stream",
        &[
            Field("stream ", "stream", Value::Number(page as u64)),
            Field(" counter ", "counter", Value::Number(stream.counter)),
        ],
    )
}

// An entry of a TD's secure EPT that begins at that GPA.
pub(crate) fn push_entry(
    alloc: Global,
    text: &mut String,
    form: Form,
    tdr: u16,
    level: u8,
    gpa: u64,
    entry: &Entry,
) -> Result<(), AllocError>
    ensures { OnOk result (string_bytes text.new ≡ string_bytes text.old ++ entry_line form tdr level gpa entry.now) }
{
    let Entry { state, page, mark } = *entry;
    let gpa = Field("entry ", "gpa", Value::Address(gpa));
    let level = Field(" level ", "level", Value::Number(level as u64));
    let tdr = Field(" of ", "td", Value::Number(tdr as u64));
    let state = Field(" ", "state", Value::Entry(state));
    let page = Field(" page ", "page", Value::Number(page as u64));
    if mark == 0 {
        push_line(alloc, text, form, "entry", &[gpa, level, tdr, state, page])
    } else {
        let mark = Field(" mark ", "mark", Value::Number(mark as u64));
        push_line(
            alloc,
            text,
            form,
            "entry",
            &[gpa, level, tdr, state, page, mark],
        )
    }
}

fn push_content(
    alloc: Global,
    text: &mut String,
    form: Form,
    page: u16,
    content: &Content,
) -> Result<(), AllocError>
    ensures { OnOk result (string_bytes text.new ≡ string_bytes text.old ++ content_text form page content.now) }
{
    match content {
        Content::Nothing => Ok(()),
        Content::Td(td) => push_td(alloc, text, form, page, td),
        Content::Vcpu(vcpu) => push_vcpu(alloc, text, form, page, vcpu),
        Content::Stream(stream) => push_stream(alloc, text, form, page, stream),
    }
}

// A page with what it has; nothing of a host page.
pub(crate) fn push_page(
    alloc: Global,
    text: &mut String,
    form: Form,
    page: u16,
    pamt: &PamtWord,
    content: &Content,
) -> Result<(), AllocError>
    ensures { OnOk result (string_bytes text.new ≡ string_bytes text.old ++ page_text form page pamt.now content.now) }
{
    if pamt.kind == PageKind::Nda {
        return Ok(());
    }
    push_page_line(alloc, text, form, page, pamt)?;
    push_content(alloc, text, form, page, content)
}

/// How many of a logical processor's calls are done.
pub fn push_done(
    alloc: Global,
    text: &mut String,
    form: Form,
    lp: u8,
    done: u64,
    calls: u64,
) -> Result<(), AllocError>
    ensures { OnOk result (string_bytes text.new ≡ string_bytes text.old ++ done_line form lp done calls) }
{
    push_line(
        alloc,
        text,
        form,
        "done",
        &[
            Field("lp ", "processor", Value::Number(lp as u64)),
            Field(" done ", "done", Value::Number(done)),
            Field(" of ", "calls", Value::Number(calls)),
        ],
    )
}

fn is_of_td(name: LockName) -> bool
    ensures { result ≡ is_of_td name }
{
    match name {
        LockName::Page(_) => false,
        LockName::Keys => false,
        _ => true,
    }
}

fn holder_text(holder: Holder) -> &'static str
    ensures { result.now ≡ holder_text holder }
{
    match holder {
        Holder::Call => "call",
        Holder::Guest => "guest",
    }
}

// A lock that a logical processor holds, of the TD of that TDR page where it is one of a TD's four.
pub(crate) fn push_held(
    alloc: Global,
    text: &mut String,
    form: Form,
    lp: u8,
    holder: Holder,
    lock: LockName,
    tdr: u16,
    mode: Mode,
) -> Result<(), AllocError>
    ensures { OnOk result (string_bytes text.new ≡ string_bytes text.old ++ held_line form lp holder lock tdr mode) }
{
    let of_td = is_of_td(lock);
    let lp = Field("lp ", "processor", Value::Number(lp as u64));
    let holder = Field(" ", "holder", Value::Word(holder_text(holder)));
    let lock = Field(" holds ", "lock", Value::Lock(lock));
    let mode = Field(" ", "mode", Value::Mode(mode));
    if of_td {
        let tdr = Field(" of ", "td", Value::Number(tdr as u64));
        push_line(alloc, text, form, "holds", &[lp, holder, lock, tdr, mode])
    } else {
        push_line(alloc, text, form, "holds", &[lp, holder, lock, mode])
    }
}

/// The guest that a logical processor is in: its TDR page, its TDVPR page, and the operations that it has
/// completed of as many as it may.
pub fn push_guest(
    alloc: Global,
    text: &mut String,
    form: Form,
    lp: u8,
    tdr: u16,
    vp: u16,
    completed: u64,
    most: u64,
) -> Result<(), AllocError>
    ensures { OnOk result (string_bytes text.new ≡ string_bytes text.old ++ guest_line form lp tdr vp completed most) }
{
    push_line(
        alloc,
        text,
        form,
        "guest",
        &[
            Field("lp ", "processor", Value::Number(lp as u64)),
            Field(" in guest of ", "td", Value::Number(tdr as u64)),
            Field(" vcpu ", "vcpu", Value::Number(vp as u64)),
            Field(" completed ", "completed", Value::Number(completed)),
            Field(" of ", "most", Value::Number(most)),
        ],
    )
}

fn access_text(may_write: bool) -> &'static str
    ensures { result.now ≡ access_text may_write }
{
    if may_write { "READ WRITE" } else { "READ" }
}

// A translation of a TD's GPA page that a logical processor has cached.
pub(crate) fn push_cached(
    alloc: Global,
    text: &mut String,
    form: Form,
    lp: u8,
    tdr: u16,
    gpa_page: u64,
    page: u16,
    may_write: bool,
) -> Result<(), AllocError>
    ensures { OnOk result (string_bytes text.new ≡ string_bytes text.old ++ cached_line form lp tdr gpa_page page may_write) }
{
    push_line(
        alloc,
        text,
        form,
        "cached",
        &[
            Field("lp ", "processor", Value::Number(lp as u64)),
            Field(" cached ", "gpa", Value::PageAddress(gpa_page)),
            Field(" of ", "td", Value::Number(tdr as u64)),
            Field(" page ", "page", Value::Number(page as u64)),
            Field(" ", "access", Value::Word(access_text(may_write))),
        ],
    )
}

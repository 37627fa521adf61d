ghost use Rattle.std.specs.Prelude.{◌≡◌, ℕ, List, Err, map, IfOk, codes};
ghost use Rattle.serde_json.specs.View.{view};
ghost use Rattle.serde_json.specs.Find.{get};
ghost use Rattle.report_json.specs.Members.{Each};
ghost use Rattle.report_json.specs.Sites.{IsCallSite, IsStack, IsSite, HasSite};
ghost use Rattle.report_json.specs.declared.report.CallSite.{CallSite};
ghost use Rattle.report_json.specs.declared.report.Site.{Site};

use crate::fault::Refusal;
use crate::member::{access_of, copied, elements_of, line_of, nth_of, text_of};
use crate::report::{CallSite, Site};
use cfix_base::List;
use serde_json::Value;
use std::alloc::Global;

/// Reads a call of a stack.
fn call_site_of(alloc: Global, object: &Value) -> Result<CallSite, Refusal>
    ensures ok { IfOk result (λ call. IsCallSite (view object.now) call) }
    ensures refused { result ≡ Err Refusal.Shape → (call : CallSite) → IsCallSite (view object.now) call → ⊥ }
{
    let Some(of) = text_of("fn", object) else {
        return Err(Refusal::Shape);
    };
    let Some(line) = line_of(object) else {
        return Err(Refusal::Shape);
    };
    let Some(nth) = nth_of(object) else {
        return Err(Refusal::Shape);
    };
    let of = copied(alloc, of)?;
    Ok(CallSite { of, line, nth })
}

/// Reads the calls of a stack.
fn calls_of(alloc: Global, values: &[Value]) -> Result<List<CallSite>, Refusal>
    ensures ok { IfOk result (λ calls. Each IsCallSite (map view values.now) calls) }
    ensures refused { result ≡ Err Refusal.Shape → (calls : List CallSite) → Each IsCallSite (map view values.now) calls → ⊥ }
{
    let mut calls = List::new(alloc);
    for value in values {
        calls.push(call_site_of(alloc, value)?)?;
    }
    Ok(calls)
}

/// Reads a site's stack.
fn stack_of(alloc: Global, object: &Value) -> Result<List<CallSite>, Refusal>
    ensures ok { IfOk result (λ calls. IsStack (get (codes "stack") (view object.now)) calls) }
    ensures refused { result ≡ Err Refusal.Shape → (calls : List CallSite) → IsStack (get (codes "stack") (view object.now)) calls → ⊥ }
{
    match object.get("stack") {
        Some(value) => match elements_of(value) {
            Some(values) => calls_of(alloc, values),
            None => Err(Refusal::Shape),
        },
        None => Ok(List::new(alloc)),
    }
}

/// Reads a site.
fn site_of(alloc: Global, object: &Value) -> Result<Site, Refusal>
    ensures ok { IfOk result (λ site. IsSite (view object.now) site) }
    ensures refused { result ≡ Err Refusal.Shape → (site : Site) → IsSite (view object.now) site → ⊥ }
{
    let Some(line) = line_of(object) else {
        return Err(Refusal::Shape);
    };
    let Some(var) = text_of("var", object) else {
        return Err(Refusal::Shape);
    };
    let Some(access) = access_of(object) else {
        return Err(Refusal::Shape);
    };
    let Some(nth) = nth_of(object) else {
        return Err(Refusal::Shape);
    };
    let stack = stack_of(alloc, object)?;
    let var = copied(alloc, var)?;
    Ok(Site {
        line,
        var,
        access,
        nth,
        stack,
    })
}

/// Reads the site that is the member of this name.
pub fn member_site(alloc: Global, object: &Value, name: &str) -> Result<Site, Refusal>
    ensures ok { IfOk result (λ site. HasSite (view object.now) name.now site) }
    ensures refused { result ≡ Err Refusal.Shape → (site : Site) → HasSite (view object.now) name.now site → ⊥ }
{
    match object.get(name) {
        Some(value) => site_of(alloc, value),
        None => Err(Refusal::Shape),
    }
}

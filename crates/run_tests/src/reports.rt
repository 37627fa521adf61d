//! The values of reports that `patch` reads and does not use.
use cfix_base::Access;
use report_json::{CallSite, Report, Site, reports};
use std::process::Abort;
use std::test::Fail;

fn check_site(rt: &impl Abort, site: &Site, line: u32, access: Access, nth: u32) {
    assert_eq!(rt; site.line, line);
    assert_eq!(rt; site.var.as_slice(), b"count".as_slice());
    assert_eq!(rt; site.access, access);
    assert_eq!(rt; site.nth, nth);
}

fn check_call(rt: &impl Abort, call: &CallSite, of: &str, line: u32, nth: u32) {
    assert_eq!(rt; call.of.as_slice(), of.as_bytes());
    assert_eq!(rt; (call.line, call.nth), (line, nth));
}

#[test]
fn order_reports(rt: HostRuntime) -> Result<(), Fail> {
    let text = r#"{"reports":[
        {"kind":"all_before","a":{"line":1,"var":"count","access":"write"},
         "b":{"line":4294967295,"var":"count","access":"read","nth":4294967295,
              "stack":[{"fn":"main","line":30},{"line":9,"nth":1,"fn":"caf\u00e9"}]}},
        {"kind":"first_before","a":{"line":2,"var":"count","access":"read"},
         "b":{"line":3,"var":"count","access":"write"}}]}"#;
    let read = reports(rt.alloc(), text.as_bytes())?;
    assert_eq!(rt; read.len(), 2);
    assert_eq!(rt; read.as_slice().len(), 2);
    match read.at(0) {
        Report::AllBefore { a, b } => {
            check_site(&rt, a, 1, Access::Write, 0);
            check_site(&rt, b, 4294967295, Access::Read, 4294967295);
            assert_eq!(rt; a.stack.len(), 0);
            assert_eq!(rt; b.stack.len(), 2);
            check_call(&rt, b.stack.at(0), "main", 30, 0);
            check_call(&rt, b.stack.at(1), "café", 9, 1);
        }
        _ => assert!(rt; false),
    }
    match read.at(1) {
        Report::FirstBefore { a, b } => {
            check_site(&rt, a, 2, Access::Read, 0);
            check_site(&rt, b, 3, Access::Write, 0);
        }
        _ => assert!(rt; false),
    }
    Ok(())
}

//! What `idltool json` tells of rows.

use super::support::are_given;
use std::test::Fail;

static ROWS: [&str; 1] = [
    // Where two entries have one id, a reference tells by its path which of them it means.
    "idltool json a.idl => a.idl: typedef long A; | #pragma ID A \"X:1\" | exception B { }; | #pragma ID B \"X:1\" | exception C { }; \
     | #pragma ID C \"X:1\" | interface I { A f() raises (C, B); }; => 0 out {\"absent\":[],\"asked\":[\"a.idl\"],\"diagnostics\":[],\
     \"faulty\":false,\"listing\":[{\"column\":14,\"file\":\"a.idl\",\"id\":\"X:1\",\"kind\":\"alias\",\"line\":1,\"main\":true,\
     \"path\":\"A\",\"type\":{\"id\":\"X:1\",\"kind\":\"tk_alias\",\"name\":\"A\",\"type\":{\"kind\":\"tk_long\"}}},{\"column\":11,\
     \"file\":\"a.idl\",\"id\":\"X:1\",\"kind\":\"exception\",\"line\":3,\"main\":true,\"path\":\"B\",\"type\":{\"id\":\"X:1\",\
     \"kind\":\"tk_except\",\"members\":[],\"name\":\"B\"}},{\"column\":11,\"file\":\"a.idl\",\"id\":\"X:1\",\"kind\":\"exception\",\
     \"line\":5,\"main\":true,\"path\":\"C\",\"type\":{\"id\":\"X:1\",\"kind\":\"tk_except\",\"members\":[],\"name\":\"C\"}},\
     {\"column\":11,\"file\":\"a.idl\",\"id\":\"IDL:I:1.0\",\"kind\":\"interface\",\"line\":7,\"main\":true,\"path\":\"I\",\"type\":\
     {\"id\":\"IDL:I:1.0\",\"kind\":\"tk_objref\",\"name\":\"I\"}},{\"column\":17,\"context\":[],\"file\":\"a.idl\",\
     \"id\":\"IDL:I/f:1.0\",\"kind\":\"operation\",\"line\":7,\"main\":true,\"oneway\":false,\"parameters\":[],\"path\":\"I::f\",\
     \"raises\":[{\"path\":\"C\",\"ref\":\"X:1\"},{\"path\":\"B\",\"ref\":\"X:1\"}],\"type\":{\"path\":\"A\",\"ref\":\"X:1\"}}],\
     \"root\":\"a.idl\"} /",
];

#[test]
fn rows_are_told_as_data(rt: HostRuntime) -> Result<(), Fail> {
    are_given(rt.alloc(), &ROWS)
}

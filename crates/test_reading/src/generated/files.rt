// The lengths and the first lines come from a reckoning of the generator in Python.

use cs_gen::make;
use cs_lex::read_lex;
use cs_yacc::read_yacc;
use std::test::Fail;

#[test]
fn generated_files(rt: HostRuntime) -> Result<(), Fail> {
    let rows = [
        (0, 1378, "n1 : t24 n2 | t6 ;\n"),
        (1, 1240, "n1 : t15 n2 | ;\n"),
        (7, 1358, "n1 : t15 n2 | n26 | t13 n7 n36 | ;\n"),
        (u64::MAX, 1259, "n1 : t17 n2 | t1 | n8 t21 n3 | ;\n"),
    ];
    for (seed, length, line) in rows {
        let files = make(rt.alloc(), seed)?;
        assert_eq!(rt; files.yacc.len(), length);
        assert_eq!(rt; files.lex.len(), 378);
        let rules = files.yacc.as_slice().get(97..).ok_or("short")?;
        assert!(rt; rules.starts_with(line.as_bytes()), "{seed}");
        match read_yacc(rt.alloc(), &files.yacc) {
            Ok(yacc) => assert!(rt; read_lex(rt.alloc(), &files.lex, &yacc).is_ok()),
            Err(_) => assert!(rt; false),
        }
    }
    Ok(())
}

// Queries: items, FROM, WHERE, ORDER BY, LIMIT and OFFSET; and several statements in a message.

/// Each text with its statements, or its fault.
pub(crate) const SELECTS: &str = r#"
# messages
;;SELECT 1; => select 1;
SELECT 1; SELECT 2 => select 1;select 2;
SELECT 1;;COMMIT => select 1;commit;
SELECT 1 SELECT 2 => Unsupported
SELECT 1, COMMIT; FOO => Syntax
SELECT 1; FOO => Syntax
FOO => Syntax
(SELECT 1) => Unsupported
"SELECT" 1 => Syntax
# items
SELECT 1 => select 1;
SELECT * => select *;
SELECT *, a AS b, c d => select * a as b c as d;
SELECT a AS "from" => select a as from;
SELECT a "X y" => select a as X y;
SELECT a values => select a as values;
SELECT index FROM temp => select index from temp;
SELECT => Syntax
SELECT a, => Syntax
SELECT , a => Syntax
SELECT a AS => Syntax
SELECT a AS from => Syntax
SELECT * AS a => Syntax
SELECT a b c => Syntax
SELECT DISTINCT v FROM t => Unsupported
SELECT ALL v FROM t => Unsupported
# FROM
SELECT a FROM t => select a from t;
SELECT a FROM t AS x => select a from t as x;
SELECT a FROM t x, u, v y => select a from t as x from u from v as y;
SELECT a FROM "T" "X" => select a from T as X;
SELECT a FROM t JOIN u ON t.k = u.k => select a from t from u on (t.k = u.k);
SELECT a FROM t INNER JOIN u x ON a CROSS JOIN v => select a from t from u as x on a from v;
SELECT a FROM t CROSS JOIN u CROSS JOIN v => select a from t from u from v;
SELECT a FROM => Syntax
SELECT a FROM t, => Syntax
SELECT a FROM t, u JOIN v ON a => Syntax
SELECT a FROM t JOIN u ON a, v => Syntax
SELECT a FROM t JOIN u => Syntax
SELECT a FROM t CROSS JOIN u ON a => Syntax
SELECT a FROM t INNER u ON a => Syntax
SELECT a FROM s.t => Syntax
SELECT a FROM t LEFT JOIN u ON a => Unsupported
SELECT a FROM t FULL JOIN u ON a => Unsupported
SELECT a FROM t JOIN u USING (k) => Unsupported
SELECT a FROM select => Unsupported
SELECT a FROM (SELECT 1) x => Unsupported
# WHERE
SELECT a FROM t WHERE a = 1 => select a from t where (a = 1);
SELECT a FROM t x WHERE x.a => select a from t as x where x.a;
SELECT a FROM t JOIN u ON b WHERE c OR d => select a from t from u on b where (c OR d);
SELECT a WHERE b => Syntax
SELECT a FROM t WHERE => Syntax
SELECT a FROM t WHERE b WHERE c => Syntax
SELECT v FROM t GROUP BY v => Unsupported
SELECT v FROM t HAVING v => Unsupported
SELECT v FROM t UNION SELECT v FROM u => Unsupported
# ORDER BY, LIMIT, OFFSET
SELECT a FROM t ORDER BY a, b DESC, c ASC => select a from t by a by b desc by c;
SELECT a ORDER BY 1 LIMIT 2 OFFSET 3 => select a by 1 limit 2 offset 3;
SELECT a ORDER BY a + 1 DESC => select a by (a + 1) desc;
SELECT a LIMIT 0 => select a limit 0;
SELECT a OFFSET 3 => select a offset 3;
SELECT a OFFSET 3 LIMIT 2 => Syntax
SELECT a LIMIT -1 => Syntax
SELECT a LIMIT 1 + 1 => Syntax
SELECT a LIMIT ALL => Unsupported
SELECT a ORDER a => Syntax
SELECT a ORDER BY => Syntax
SELECT a ORDER BY a ASC DESC => Syntax
SELECT a ORDER BY a NULLS FIRST => Unsupported
SELECT a ORDER BY a USING < => Unsupported
SELECT a FOR UPDATE => Unsupported
"#;

/// Such texts that aren't plain lines.
pub(crate) const SPACED_SELECTS: &[(&str, &str)] = &[
    ("", ""),
    (";", ""),
    (" ; ;-- no statement\n", ""),
];

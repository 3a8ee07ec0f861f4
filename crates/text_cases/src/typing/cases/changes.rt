// UPDATE and DELETE.

/// UPDATEs and DELETEs.
pub(crate) const CHANGES: &str = r"
UPDATE t SET v = 5 WHERE k = 1 => update 0 reads () at 1 set 1 = 5:l where =(0.0:l 1:i):b
UPDATE t SET v = v + 1 WHERE k = 1 => update 0 reads (1) at 1 set 1 = +(0.1:l 1:i):l where =(0.0:l 1:i):b
UPDATE t SET v = 5 => update 0 reads () at - set 1 = 5:l
UPDATE t SET v = t.k => update 0 reads () at - set 1 = 0.0:l
UPDATE t SET v = 1 WHERE v IS NULL AND k = 2 => update 0 reads (1) at 2 set 1 = 1:l where and(isnull(0.1:l):b =(0.0:l 2:i):b):b
# The table, then the names from left to right: unknown, twice, the key. PostgreSQL lets a key be assigned.
UPDATE q SET nosuch = 1 => S42P01
UPDATE t SET q = 1, v = nosuch => S42703
UPDATE t SET v = 1, v = 2 => S42601
UPDATE t SET v = 1, v = 2, q = 3 => S42601
UPDATE t SET k = 1 => S0A000
UPDATE t SET k = 1, k = 2 => S0A000
UPDATE t SET v = 1, k = 2, q = 3 => S0A000
UPDATE t SET q = 1, k = 2 => S42703
# Then the values, then WHERE.
UPDATE t SET v = true, k = 1 => S0A000
UPDATE t SET v = 'x' WHERE nosuch => S22P02
UPDATE p SET a = nosuch, b = true => S42703
UPDATE p SET a = true, b = nosuch => S42804
UPDATE t SET v = 1 WHERE 1 => S42804
UPDATE t SET v = 1 WHERE 'x' => S0A000
UPDATE t SET v = 1 WHERE nosuch = 1 => S42703
UPDATE t SET v = q.v => S42P01
UPDATE t SET v = count(*) => S42803
UPDATE t SET v = 1 WHERE max(v) = 1 => S42803
# Assignment.
UPDATE w SET n = DEFAULT => update 2 reads () at - set 1 = 7:i
UPDATE t SET v = DEFAULT => update 0 reads () at - set 1 = null:l
UPDATE w SET n = NULL => update 2 reads () at - set 1 = null:i
UPDATE w SET n = '12' => update 2 reads () at - set 1 = 12:i
UPDATE w SET n = -2147483649 => S22003
UPDATE w SET n = n + 3000000000 => update 2 reads (1) at - set 1 = +(0.1:i 3000000000:l):l
UPDATE u SET name = code, code = name WHERE ok => update 1 reads (1,2,3) at - set 1 = 0.2:v3 set 2 = 0.1:t where 0.3:b
UPDATE u SET code = 'abc ', ok = NOT ok => update 1 reads (3) at - set 2 = 'abc':v3 set 3 = not(0.3:b):b
UPDATE u SET code = 'abcd' => S22001
UPDATE u SET ok = id => S42804
UPDATE u SET ok = 'f' => S0A000
UPDATE u SET name = id => S42804
# What a CHECK that mentions an assigned column mentions is read too.
UPDATE p SET b = 1 => update 4 reads (1,2) at - set 2 = 1:i
UPDATE p SET a = NULL => update 4 reads (1,2) at - set 1 = null:i
UPDATE p SET d = 2 WHERE k = 1 => update 4 reads (3) at 1 set 3 = 2:i where =(0.0:i 1:i):b
UPDATE p SET d = 2, a = 1 => update 4 reads (1,2,3) at - set 3 = 2:i set 1 = 1:i
UPDATE s SET b = k = 'a' => update 3 reads () at - set 1 = =(0.0:v3 'a':v3):b
UPDATE p SET a = 1 WHERE '2' = k AND d > 0 => update 4 reads (1,2,3) at 2 set 1 = 1:i where and(=(2:i 0.0:i):b >(0.3:i 0:i):b):b
UPDATE u SET name = NULL WHERE id = -3 => update 1 reads () at -3 set 1 = null:t where =(0.0:i neg(3:i):i):b
# DELETE: the table, then WHERE.
DELETE FROM t => delete 0 reads () at -
DELETE FROM t WHERE k = 7 => delete 0 reads () at 7 where =(0.0:l 7:i):b
DELETE FROM u WHERE u.name = 'a' OR code < 'b' => delete 1 reads (1,2) at - where or(=(0.1:t 'a':t):b <(0.2:v3 'b':v3):b):b
DELETE FROM s WHERE k = 'abc  ' AND NOT b => delete 3 reads (1) at 'abc  ' where and(=(0.0:v3 'abc  ':v3):b not(0.1:b):b):b
DELETE FROM t WHERE v = 1 OR k = 1 => delete 0 reads (1) at - where or(=(0.1:l 1:i):b =(0.0:l 1:i):b):b
DELETE FROM q WHERE nosuch => S42P01
DELETE FROM t WHERE q = 1 => S42703
DELETE FROM t WHERE u.k = 1 => S42P01
DELETE FROM t WHERE v => S42804
DELETE FROM t WHERE 'x' => S0A000
DELETE FROM t WHERE count(*) = 1 => S42803
DELETE FROM t WHERE v = true => S42883
";

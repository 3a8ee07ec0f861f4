// Sessions whose subject is their messages.

const MESSAGES: &str = r"
# a request for encryption is refused
> SSLRequest
< bytes N
> StartupMessage user=a
+ started
> Terminate
* close 1
= session 1: Terminated

# a startup without a user
> StartupMessage
< ErrorResponse FATAL 28000 no user name in startup message
= no session: Refused(S28000)

# a length that is too small
> StartupMessage user=a
+ started
> bytes Q\0\0\0\x03
* close 1
< ErrorResponse FATAL 08P01 protocol violation
= session 1: Protocol(BadLength(3))

# a Query without its zero byte
> StartupMessage user=a
+ started
> bytes Q\0\0\0\x06SEL
* close 1
< ErrorResponse FATAL 08P01 protocol violation
= session 1: Protocol(NoTerminator)

# a Query that is cut short
> StartupMessage user=a
+ started
> bytes Q\0\0\0\x20SE
* close 1
= session 1: Cut

# a fault inside a message of several statements
> StartupMessage user=a
+ started
+ table t
> Query INSERT INTO t VALUES (1, 10); SELECT 1/0; INSERT INTO t VALUES (2, 20)
words 0
* look 1 1
* begin 1 rc
* read 1 p.0.1 0 1 0 false
* write 1 p.0.1 true
* write 1 f.0.1.1 10
* rollback 1
< CommandComplete INSERT 0 1
< ErrorResponse ERROR 22012 division by zero
< ReadyForQuery I
> Terminate
* close 1
= session 1: Terminated

# a failed block
> StartupMessage user=a
+ started
+ table t
> Query BEGIN
* begin 1 rc
< CommandComplete BEGIN
< ReadyForQuery T
> Query SELECT 1/0
* rollback 1
< ErrorResponse ERROR 22012 division by zero
< ReadyForQuery E
> Query SELECT v FROM t WHERE k = 1
< ErrorResponse ERROR 25P02 current transaction is aborted
< ReadyForQuery E
> Query COMMIT
< CommandComplete ROLLBACK
< ReadyForQuery I
> Terminate
* close 1
= session 1: Terminated

# a syntax error after a good statement
> StartupMessage user=a
+ started
> Query SELECT 1; SELEC 2
< ErrorResponse ERROR 42601 syntax error
< ReadyForQuery I
> Terminate
* close 1
= session 1: Terminated

# empty texts, a COMMIT outside a block, the history's number
> StartupMessage user=a
+ started
+ table t
> Query SHOW monkey.history
* show 1 3
< RowDescription monkey.history text
< DataRow 3
< CommandComplete SHOW
< ReadyForQuery I
> Query
< EmptyQueryResponse
< ReadyForQuery I
> Query ;
< EmptyQueryResponse
< ReadyForQuery I
> Query  -- x
< EmptyQueryResponse
< ReadyForQuery I
> Query COMMIT
< NoticeResponse WARNING 25P01 there is no transaction in progress
< CommandComplete COMMIT
< ReadyForQuery I
> Terminate
* close 1
= session 1: Terminated

# a driver's session
# Two words of six are drawn.
> StartupMessage user=app database=shop application_name=unit
+ started
+ table t
+ row (1, 10) with the word 1
> Query SET client_encoding TO 'UTF8'
< CommandComplete SET
< ReadyForQuery I
> Query BEGIN ISOLATION LEVEL READ COMMITTED
* begin 1 rc
< CommandComplete BEGIN
< ReadyForQuery T
> Query UPDATE t SET v = 5 WHERE k = 1
words 1 1 1 1 1
* look 1 1
* read 1 p.0.1 1 2 1 true
* write 1 f.0.1.1 5
< CommandComplete UPDATE 1
< ReadyForQuery T
> Query COMMIT
* commit 1
< CommandComplete COMMIT
< ReadyForQuery I
> Terminate
* close 1
= session 1: Terminated
";

/// Sessions whose subject is their messages.
pub fn message_sessions() -> &'static str {
    MESSAGES
}

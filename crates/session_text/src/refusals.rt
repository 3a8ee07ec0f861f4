// Sessions whose clients send messages of the extended query, function calls, messages of a copy, and requests before the startup.

const REFUSALS: &str = r"
# a Parse fails, and what follows it is discarded up to the Sync
> StartupMessage user=a
+ started
> Parse \0SELECT 1\0\0\0
< ErrorResponse ERROR 0A000 feature not supported
> Query SELECT 1
> FunctionCall \0\0
> Execute
> Flush
> CopyData x
> Sync
< ReadyForQuery I
> Query SELECT 1
< RowDescription ?column? integer
< DataRow 1
< CommandComplete SELECT 1
< ReadyForQuery I
> Terminate
* close 1
= session 1: Terminated

# a Bind inside a block rolls it back and fails it
> StartupMessage user=a
+ started
> Query BEGIN
* begin 1 rc
< CommandComplete BEGIN
< ReadyForQuery T
> Bind
* rollback 1
< ErrorResponse ERROR 0A000 feature not supported
> Query COMMIT
> Sync
< ReadyForQuery E
> Query SELECT 1
< ErrorResponse ERROR 25P02 current transaction is aborted
< ReadyForQuery E
> Query COMMIT
< CommandComplete ROLLBACK
< ReadyForQuery I
> Terminate
* close 1
= session 1: Terminated

# Describe, Execute and Close in a failed block
# The client ends while messages are discarded.
> StartupMessage user=a
+ started
> Query BEGIN; SELECT 1/0
* begin 1 rc
* rollback 1
< CommandComplete BEGIN
< ErrorResponse ERROR 22012 division by zero
< ReadyForQuery E
> Describe
< ErrorResponse ERROR 0A000 feature not supported
> Sync
< ReadyForQuery E
> Execute abcde
< ErrorResponse ERROR 0A000 feature not supported
> Close
> Terminate
* close 1
= session 1: Terminated

# a function call fails its block, and nothing is discarded
> StartupMessage user=a
+ started
> FunctionCall
< ErrorResponse ERROR 0A000 feature not supported
< ReadyForQuery I
> Query BEGIN
* begin 1 rc
< CommandComplete BEGIN
< ReadyForQuery T
> FunctionCall
* rollback 1
< ErrorResponse ERROR 0A000 feature not supported
< ReadyForQuery E
> FunctionCall
< ErrorResponse ERROR 0A000 feature not supported
< ReadyForQuery E
> Query ROLLBACK
< CommandComplete ROLLBACK
< ReadyForQuery I
> Terminate
* close 1
= session 1: Terminated

# Flush and the messages of a copy tell nothing, Sync tells the state
# The input ends inside the block.
> StartupMessage user=a
+ started
> Sync
< ReadyForQuery I
> Query BEGIN
* begin 1 rc
< CommandComplete BEGIN
< ReadyForQuery T
> CopyData abc
> CopyDone
> CopyFail no
> Flush
> Sync
< ReadyForQuery T
* rollback 1
* close 1
= session 1: Closed

# the input ends in a message that would be discarded
> StartupMessage user=a
+ started
> Parse
< ErrorResponse ERROR 0A000 feature not supported
> bytes Q\0\0\0\x0aSEL
* close 1
= session 1: Cut

# a byte that is no message's type, while messages are discarded
> StartupMessage user=a
+ started
> Query BEGIN
* begin 1 rc
< CommandComplete BEGIN
< ReadyForQuery T
> Parse
* rollback 1
< ErrorResponse ERROR 0A000 feature not supported
> bytes z
* close 1
< ErrorResponse FATAL 08P01 protocol violation
= session 1: Protocol(UnknownType(122))

# a fault of the stream inside a block
> StartupMessage user=a
+ started
> Query BEGIN
* begin 1 rc
< CommandComplete BEGIN
< ReadyForQuery T
> bytes X\0\0\0\x05
* rollback 1
* close 1
< ErrorResponse FATAL 08P01 protocol violation
= session 1: Protocol(BadLength(5))

# the client ends inside a block
> StartupMessage user=a
+ started
> Query BEGIN
* begin 1 rc
< CommandComplete BEGIN
< ReadyForQuery T
> Terminate
* rollback 1
* close 1
= session 1: Terminated

# requests for encryption, and a cancel
# What stands after it isn't looked at.
> SSLRequest
< bytes N
> GSSENCRequest
< bytes N
> SSLRequest
< bytes N
> CancelRequest 1 0
> StartupMessage user=a
= no session: Cancelled

# a startup of another version
> bytes \0\0\0\x08\0\x02\0\0
< ErrorResponse FATAL 0A000 feature not supported
> Terminate
= no session: Refused(S0A000)

# the last of two user names is empty
> StartupMessage user=a user=
< ErrorResponse FATAL 28000 no user name in startup message
> Terminate
= no session: Refused(S28000)

# no bytes at all
= no session: Closed

# half a length
> bytes \0\0
= no session: Cut

# the level of the server is told
> StartupMessage user=a
+ started
> Query SHOW monkey.level
< RowDescription monkey.level text
< DataRow rc
< CommandComplete SHOW
< ReadyForQuery I
> Terminate
* close 1
= session 1: Terminated
";

/// Sessions whose clients send messages of the extended query, function calls, messages of a copy, and requests before the startup.
pub fn refusal_sessions() -> &'static str {
    REFUSALS
}

// What the host in memory does as a host.
ghost use Rattle.std.specs.Prelude.{◌≡◌, ◌<◌, ◌⊎◌, [], Some, None, IfOk, IfSome, IsErr, IsErrOf, IsSome};
ghost use Rattle.link_traits.specs.Traffic.{untouched};
ghost use Rattle.link_traits.specs.Host.{standard_link_called, open_file_called, make_file_called, link_returned, file_returned, new_file_returned, handed_out, call_failed, taken_back, link_failed, open_failed, make_failed, bytes_at};
ghost use Rattle.link_traits.specs.Memory.{FailsNext, mem_sight};
ghost use Rattle.link_traits.specs.Hosts.{mem_hosted, mem_asked, mem_handed_out, mem_failed, mem_taken_back, with_sink, opened_file, made_file};

use crate::host::{Host, HostFault};
use crate::mem_call::{MemCall, MemReturned};
use crate::mem_host::MemHost;
use crate::mem_link::MemLink;
use crate::mem_sink::MemSink;
use crate::mem_source::MemSource;
use cell_base::Text;
use std::io;

impl Host for MemHost {
    type Link = MemLink;

    type File = MemSource;

    type NewFile = MemSink;

    type Out = MemSink;

    ghost hosted = { mem_hosted };

    /// Hands out the link that the host was made with, once. It fails only where this call is to fail or there is no link, and
    /// a call that is to fail hands none out.
    fn standard_link(&mut self) -> Result<MemLink, HostFault>
        ensures ok { IfOk result (λ link. mem_hosted self.new ≡ record (handed_out (standard_link_called (Some (mem_sight link))) (mem_hosted self.old)) { next_link = (mem_hosted self.new).next_link }) }
        ensures told { IfOk result (λ link. IfSome (mem_hosted self.old).next_link (λ next. mem_sight link ≡ next)) }
        ensures failed { IsErrOf result HostFault.Failed → mem_hosted self.new ≡ call_failed (standard_link_called None) (link_failed (mem_hosted self.old).faults) (mem_hosted self.old) }
        ensures memory { IsErrOf result HostFault.Memory → mem_hosted self.new ≡ mem_hosted self.old }
        ensures link { IfOk result (λ link. self.old.standard ≡ Some link) }
        ensures fails { IsErrOf result HostFault.Failed → FailsNext self.old.fails self.old.asked ⊎ (self.old.standard ≡ None) }
        ensures planned { FailsNext self.old.fails self.old.asked → IsErr result }
        ensures new_ok { IfOk result (λ link. self.new ≡ record (mem_handed_out (MemCall.StandardLink (Some link)) self.old) { standard = None }) }
        ensures new_failed { IsErrOf result HostFault.Failed → self.new ≡ mem_failed (MemCall.StandardLink None) (link_failed self.old.faults) self.old }
        ensures new_memory { IsErrOf result HostFault.Memory → self.new ≡ mem_asked self.old }
    {
        self.hand_out_link()
    }

    /// Takes a link back. What the host hands out later doesn't change.
    fn link_back(&mut self, link: MemLink)
        requires { 0 < (mem_hosted self.old).lent }
        ensures back { mem_hosted self.new ≡ taken_back (link_returned (mem_sight link)) (mem_hosted self.old) }
        ensures new { self.new ≡ mem_taken_back (MemReturned.Link link) self.old }
    {
        self.lent.take_back(MemReturned::Link(link));
    }

    /// Opens a file that the host was made with. It fails only where this call is to fail or there is no such file, and hands none
    /// out there.
    fn open_file(&mut self, path: &Text) -> Result<MemSource, HostFault>
        ensures ok { IfOk result (λ file. mem_hosted self.new ≡ handed_out (open_file_called path.now (Some (mem_sight file))) (mem_hosted self.old)) }
        ensures told { IfOk result (λ file. IfSome (bytes_at (mem_hosted self.old).files path.now) (λ bytes. Some file.traffic ≡ Some (untouched bytes))) }
        ensures failed { IsErrOf result HostFault.Failed → mem_hosted self.new ≡ call_failed (open_file_called path.now None) (open_failed (mem_hosted self.old).faults) (mem_hosted self.old) }
        ensures memory { IsErrOf result HostFault.Memory → mem_hosted self.new ≡ mem_hosted self.old }
        ensures file { IfOk result (λ file. IfSome (bytes_at self.old.files path.now) (λ bytes. file ≡ opened_file self.old.opened bytes)) }
        ensures fails { IsErrOf result HostFault.Failed → FailsNext self.old.fails self.old.asked ⊎ (bytes_at self.old.files path.now ≡ None) }
        ensures planned { FailsNext self.old.fails self.old.asked → IsErr result }
        ensures missing { bytes_at self.old.files path.now ≡ None → IsErr result }
        ensures new_ok { IfOk result (λ file. self.new ≡ mem_handed_out (MemCall.OpenFile path.now (Some file)) self.old) }
        ensures new_failed { IsErrOf result HostFault.Failed → self.new ≡ mem_failed (MemCall.OpenFile path.now None) (open_failed self.old.faults) self.old }
        ensures new_memory { IsErrOf result HostFault.Memory → self.new ≡ mem_asked self.old }
    {
        self.hand_out_file(path)
    }

    /// Takes a file back that was opened.
    fn file_back(&mut self, file: MemSource)
        requires { 0 < (mem_hosted self.old).lent }
        ensures back { mem_hosted self.new ≡ taken_back (file_returned (mem_sight file)) (mem_hosted self.old) }
        ensures new { self.new ≡ mem_taken_back (MemReturned.File file) self.old }
    {
        self.lent.take_back(MemReturned::File(file));
    }

    /// Makes a file of any path. It fails only where this call is to fail.
    fn make_file(&mut self, path: &Text) -> Result<MemSink, HostFault>
        ensures ok { IfOk result (λ file. mem_hosted self.new ≡ handed_out (make_file_called path.now (Some (mem_sight file))) (mem_hosted self.old)) }
        ensures empty { IfOk result (λ file. IfSome (Some file.traffic) (λ told. told.written ≡ [])) }
        ensures failed { IsErrOf result HostFault.Failed → mem_hosted self.new ≡ call_failed (make_file_called path.now None) (make_failed (mem_hosted self.old).faults) (mem_hosted self.old) }
        ensures memory { IsErrOf result HostFault.Memory → mem_hosted self.new ≡ mem_hosted self.old }
        ensures file { IfOk result (λ file. file ≡ made_file self.old.made) }
        ensures fails { IsErrOf result HostFault.Failed → FailsNext self.old.fails self.old.asked }
        ensures planned { FailsNext self.old.fails self.old.asked → IsErr result }
        ensures new_ok { IfOk result (λ file. self.new ≡ mem_handed_out (MemCall.MakeFile path.now (Some file)) self.old) }
        ensures new_failed { IsErrOf result HostFault.Failed → self.new ≡ mem_failed (MemCall.MakeFile path.now None) (make_failed self.old.faults) self.old }
        ensures new_memory { IsErrOf result HostFault.Memory → self.new ≡ mem_asked self.old }
    {
        self.hand_out_new_file(path)
    }

    /// Takes a file back that was made.
    fn new_file_back(&mut self, file: MemSink)
        requires { 0 < (mem_hosted self.old).lent }
        ensures back { mem_hosted self.new ≡ taken_back (new_file_returned (mem_sight file)) (mem_hosted self.old) }
        ensures new { self.new ≡ mem_taken_back (MemReturned.NewFile file) self.old }
    {
        self.lent.take_back(MemReturned::NewFile(file));
    }

    /// Hands the output sink out. What the host hands out later doesn't change.
    fn take_out(&mut self) -> MemSink
        requires { IsSome (mem_hosted self.old).out }
        ensures sink { (mem_hosted self.old).out ≡ Some (mem_sight result) }
        ensures out { mem_hosted self.new ≡ record (mem_hosted self.old) { out = None } }
        ensures taken { self.old.lent.sink ≡ Some result }
        ensures new { self.new ≡ with_sink None self.old }
    {
        self.lent.take_sink()
    }

    /// Takes the output sink back. What the host hands out later doesn't change.
    fn out_back(&mut self, sink: MemSink)
        requires { (mem_hosted self.old).out ≡ None }
        ensures out { mem_hosted self.new ≡ record (mem_hosted self.old) { out = Some (mem_sight sink) } }
        ensures new { self.new ≡ with_sink (Some sink) self.old }
    {
        self.lent.sink_back(sink);
    }

    /// There is no system that said anything.
    fn reason(&self) -> Option<io::Error>
        ensures { result ≡ None }
    {
        None
    }
}

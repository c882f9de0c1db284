//! What each method takes, which methods are there, and the moods: the faults that each call can have, and the
//! signatures.

use crate::act_tests::{all_come_out, come_out_over};
use crate::scenes::{BUSY, scene_with};
use std::alloc::Global;
use std::process::Abort;
use sv_base::state::Mood;

/// Too few parameters, too many, and those of other types.
const BAD_PARAMS: &str = "clearAllProcessLogs 1 => fault 2 INCORRECT_PARAMETERS
clearAllProcessLogs x y => fault 2 INCORRECT_PARAMETERS
clearLog x => fault 2 INCORRECT_PARAMETERS
getAPIVersion true => fault 2 INCORRECT_PARAMETERS
getAllProcessInfo [] => fault 2 INCORRECT_PARAMETERS
getAllProcessInfo x y => fault 2 INCORRECT_PARAMETERS
getIdentification {} => fault 2 INCORRECT_PARAMETERS
getPID 1.5 => fault 2 INCORRECT_PARAMETERS
getState x => fault 2 INCORRECT_PARAMETERS
getState x y => fault 2 INCORRECT_PARAMETERS
getSupervisorVersion 1 => fault 2 INCORRECT_PARAMETERS
shutdown true => fault 2 INCORRECT_PARAMETERS
system.listMethods x => fault 2 INCORRECT_PARAMETERS
clearProcessLogs => fault 2 INCORRECT_PARAMETERS
clearProcessLogs 1 => fault 2 INCORRECT_PARAMETERS
clearProcessLogs true => fault 2 INCORRECT_PARAMETERS
clearProcessLogs x x => fault 2 INCORRECT_PARAMETERS
getProcessInfo => fault 2 INCORRECT_PARAMETERS
getProcessInfo 1 => fault 2 INCORRECT_PARAMETERS
getProcessInfo true => fault 2 INCORRECT_PARAMETERS
getProcessInfo x x => fault 2 INCORRECT_PARAMETERS
signalAllProcesses => fault 2 INCORRECT_PARAMETERS
signalAllProcesses 1 => fault 2 INCORRECT_PARAMETERS
signalAllProcesses true => fault 2 INCORRECT_PARAMETERS
signalAllProcesses x x => fault 2 INCORRECT_PARAMETERS
system.methodSignature => fault 2 INCORRECT_PARAMETERS
system.methodSignature 1 => fault 2 INCORRECT_PARAMETERS
system.methodSignature true => fault 2 INCORRECT_PARAMETERS
system.methodSignature x x => fault 2 INCORRECT_PARAMETERS
getProcessInfo {} => fault 2 INCORRECT_PARAMETERS
clearProcessLogs [] => fault 2 INCORRECT_PARAMETERS
signalAllProcesses 1.5 => fault 2 INCORRECT_PARAMETERS
startAllProcesses x => fault 2 INCORRECT_PARAMETERS
startAllProcesses 1 => fault 2 INCORRECT_PARAMETERS
startAllProcesses true true => fault 2 INCORRECT_PARAMETERS
stopAllProcesses x => fault 2 INCORRECT_PARAMETERS
stopAllProcesses 1 => fault 2 INCORRECT_PARAMETERS
stopAllProcesses true true => fault 2 INCORRECT_PARAMETERS
startProcess => fault 2 INCORRECT_PARAMETERS
startProcess true => fault 2 INCORRECT_PARAMETERS
startProcess cat 1 => fault 2 INCORRECT_PARAMETERS
startProcess cat true true => fault 2 INCORRECT_PARAMETERS
startProcessGroup => fault 2 INCORRECT_PARAMETERS
startProcessGroup true => fault 2 INCORRECT_PARAMETERS
startProcessGroup cat 1 => fault 2 INCORRECT_PARAMETERS
startProcessGroup cat true true => fault 2 INCORRECT_PARAMETERS
stopProcess => fault 2 INCORRECT_PARAMETERS
stopProcess true => fault 2 INCORRECT_PARAMETERS
stopProcess cat 1 => fault 2 INCORRECT_PARAMETERS
stopProcess cat true true => fault 2 INCORRECT_PARAMETERS
stopProcessGroup => fault 2 INCORRECT_PARAMETERS
stopProcessGroup true => fault 2 INCORRECT_PARAMETERS
stopProcessGroup cat 1 => fault 2 INCORRECT_PARAMETERS
stopProcessGroup cat true true => fault 2 INCORRECT_PARAMETERS
startProcess 1 true => fault 2 INCORRECT_PARAMETERS
startProcess cat x => fault 2 INCORRECT_PARAMETERS
stopProcess [] true => fault 2 INCORRECT_PARAMETERS
stopProcess cat {} => fault 2 INCORRECT_PARAMETERS
sendProcessStdin => fault 2 INCORRECT_PARAMETERS
sendProcessStdin cat => fault 2 INCORRECT_PARAMETERS
sendProcessStdin cat 15 => fault 2 INCORRECT_PARAMETERS
sendProcessStdin 1 TERM => fault 2 INCORRECT_PARAMETERS
sendProcessStdin cat TERM x => fault 2 INCORRECT_PARAMETERS
sendRemoteCommEvent => fault 2 INCORRECT_PARAMETERS
sendRemoteCommEvent cat => fault 2 INCORRECT_PARAMETERS
sendRemoteCommEvent cat 15 => fault 2 INCORRECT_PARAMETERS
sendRemoteCommEvent 1 TERM => fault 2 INCORRECT_PARAMETERS
sendRemoteCommEvent cat TERM x => fault 2 INCORRECT_PARAMETERS
signalProcess => fault 2 INCORRECT_PARAMETERS
signalProcess cat => fault 2 INCORRECT_PARAMETERS
signalProcess cat 15 => fault 2 INCORRECT_PARAMETERS
signalProcess 1 TERM => fault 2 INCORRECT_PARAMETERS
signalProcess cat TERM x => fault 2 INCORRECT_PARAMETERS
signalProcessGroup => fault 2 INCORRECT_PARAMETERS
signalProcessGroup cat => fault 2 INCORRECT_PARAMETERS
signalProcessGroup cat 15 => fault 2 INCORRECT_PARAMETERS
signalProcessGroup 1 TERM => fault 2 INCORRECT_PARAMETERS
signalProcessGroup cat TERM x => fault 2 INCORRECT_PARAMETERS
sendProcessStdin cat true => fault 2 INCORRECT_PARAMETERS
sendProcessStdin cat [] => fault 2 INCORRECT_PARAMETERS
readLog => fault 2 INCORRECT_PARAMETERS
readLog 0 => fault 2 INCORRECT_PARAMETERS
readLog 0 0 0 => fault 2 INCORRECT_PARAMETERS
readLog x 0 => fault 2 INCORRECT_PARAMETERS
readLog 0 x => fault 2 INCORRECT_PARAMETERS
readLog 0 true => fault 2 INCORRECT_PARAMETERS
readLog 1.5 0 => fault 2 INCORRECT_PARAMETERS
readProcessStderrLog => fault 2 INCORRECT_PARAMETERS
readProcessStderrLog cat => fault 2 INCORRECT_PARAMETERS
readProcessStderrLog cat 0 => fault 2 INCORRECT_PARAMETERS
readProcessStderrLog cat 0 0 0 => fault 2 INCORRECT_PARAMETERS
readProcessStderrLog 1 0 0 => fault 2 INCORRECT_PARAMETERS
readProcessStderrLog cat x 0 => fault 2 INCORRECT_PARAMETERS
readProcessStderrLog cat 0 x => fault 2 INCORRECT_PARAMETERS
readProcessStdoutLog => fault 2 INCORRECT_PARAMETERS
readProcessStdoutLog cat => fault 2 INCORRECT_PARAMETERS
readProcessStdoutLog cat 0 => fault 2 INCORRECT_PARAMETERS
readProcessStdoutLog cat 0 0 0 => fault 2 INCORRECT_PARAMETERS
readProcessStdoutLog 1 0 0 => fault 2 INCORRECT_PARAMETERS
readProcessStdoutLog cat x 0 => fault 2 INCORRECT_PARAMETERS
readProcessStdoutLog cat 0 x => fault 2 INCORRECT_PARAMETERS
tailProcessStderrLog => fault 2 INCORRECT_PARAMETERS
tailProcessStderrLog cat => fault 2 INCORRECT_PARAMETERS
tailProcessStderrLog cat 0 => fault 2 INCORRECT_PARAMETERS
tailProcessStderrLog cat 0 0 0 => fault 2 INCORRECT_PARAMETERS
tailProcessStderrLog 1 0 0 => fault 2 INCORRECT_PARAMETERS
tailProcessStderrLog cat x 0 => fault 2 INCORRECT_PARAMETERS
tailProcessStderrLog cat 0 x => fault 2 INCORRECT_PARAMETERS
tailProcessStdoutLog => fault 2 INCORRECT_PARAMETERS
tailProcessStdoutLog cat => fault 2 INCORRECT_PARAMETERS
tailProcessStdoutLog cat 0 => fault 2 INCORRECT_PARAMETERS
tailProcessStdoutLog cat 0 0 0 => fault 2 INCORRECT_PARAMETERS
tailProcessStdoutLog 1 0 0 => fault 2 INCORRECT_PARAMETERS
tailProcessStdoutLog cat x 0 => fault 2 INCORRECT_PARAMETERS
tailProcessStdoutLog cat 0 x => fault 2 INCORRECT_PARAMETERS
system.multicall => fault 2 INCORRECT_PARAMETERS
system.multicall [] => fault 2 INCORRECT_PARAMETERS
system.multicall x => fault 2 INCORRECT_PARAMETERS";

/// Names of no method.
const NO_METHODS: &str = "system.methodHelp x => fault 1 UNKNOWN_METHOD
system.shutdown => fault 1 UNKNOWN_METHOD
system. => fault 1 UNKNOWN_METHOD
getstate => fault 1 UNKNOWN_METHOD
getState.x => fault 1 UNKNOWN_METHOD
.getState => fault 1 UNKNOWN_METHOD
SUPERVISOR.getState => fault 1 UNKNOWN_METHOD
supervisor. => fault 1 UNKNOWN_METHOD
'supervisor.getState => fault 1 UNKNOWN_METHOD
getVersion => fault 1 UNKNOWN_METHOD
nope => fault 1 UNKNOWN_METHOD
nope 1 2 3 => fault 1 UNKNOWN_METHOD
system.ListMethods => fault 1 UNKNOWN_METHOD
getProcessInfos x => fault 1 UNKNOWN_METHOD";

/// In another mood than RUNNING: each method of `supervisor` but `getState` is refused, after its parameters were
/// looked at.
const SHUT: &str = "clearAllProcessLogs => fault 6 SHUTDOWN_STATE
clearLog => fault 6 SHUTDOWN_STATE
clearProcessLogs cat => fault 6 SHUTDOWN_STATE
getAPIVersion => fault 6 SHUTDOWN_STATE
getAllProcessInfo => fault 6 SHUTDOWN_STATE
getIdentification => fault 6 SHUTDOWN_STATE
getPID => fault 6 SHUTDOWN_STATE
getProcessInfo cat => fault 6 SHUTDOWN_STATE
getSupervisorVersion => fault 6 SHUTDOWN_STATE
readLog 0 0 => fault 6 SHUTDOWN_STATE
readProcessStderrLog web:a 0 0 => fault 6 SHUTDOWN_STATE
readProcessStdoutLog cat 0 0 => fault 6 SHUTDOWN_STATE
sendProcessStdin cat x => fault 6 SHUTDOWN_STATE
sendRemoteCommEvent x y => fault 6 SHUTDOWN_STATE
shutdown => fault 6 SHUTDOWN_STATE
signalAllProcesses TERM => fault 6 SHUTDOWN_STATE
signalProcess cat TERM => fault 6 SHUTDOWN_STATE
signalProcessGroup cat TERM => fault 6 SHUTDOWN_STATE
startAllProcesses => fault 6 SHUTDOWN_STATE
startProcess web:a => fault 6 SHUTDOWN_STATE
startProcessGroup web false => fault 6 SHUTDOWN_STATE
stopAllProcesses => fault 6 SHUTDOWN_STATE
stopProcess cat => fault 6 SHUTDOWN_STATE
stopProcessGroup cat => fault 6 SHUTDOWN_STATE
tailProcessStderrLog web:a 0 0 => fault 6 SHUTDOWN_STATE
tailProcessStdoutLog cat 0 0 => fault 6 SHUTDOWN_STATE
startProcess nope => fault 6 SHUTDOWN_STATE
readLog -4 1 => fault 6 SHUTDOWN_STATE
signalProcess cat WINCH => fault 6 SHUTDOWN_STATE
getPID 1 => fault 2 INCORRECT_PARAMETERS
startProcess => fault 2 INCORRECT_PARAMETERS
nope => fault 1 UNKNOWN_METHOD
system.methodHelp => fault 1 UNKNOWN_METHOD
system.methodSignature supervisor.getPID => ['int']
system.methodSignature nope => fault 4 SIGNATURE_UNSUPPORTED";

/// Without the section that brings the methods of `supervisor`.
const WITHOUT_RPC: &str = "clearAllProcessLogs => fault 1 UNKNOWN_METHOD
clearLog => fault 1 UNKNOWN_METHOD
clearProcessLogs cat => fault 1 UNKNOWN_METHOD
getAPIVersion => fault 1 UNKNOWN_METHOD
getAllProcessInfo => fault 1 UNKNOWN_METHOD
getIdentification => fault 1 UNKNOWN_METHOD
getPID => fault 1 UNKNOWN_METHOD
getProcessInfo cat => fault 1 UNKNOWN_METHOD
getSupervisorVersion => fault 1 UNKNOWN_METHOD
readLog 0 0 => fault 1 UNKNOWN_METHOD
readProcessStderrLog web:a 0 0 => fault 1 UNKNOWN_METHOD
readProcessStdoutLog cat 0 0 => fault 1 UNKNOWN_METHOD
sendProcessStdin cat x => fault 1 UNKNOWN_METHOD
sendRemoteCommEvent x y => fault 1 UNKNOWN_METHOD
shutdown => fault 1 UNKNOWN_METHOD
signalAllProcesses TERM => fault 1 UNKNOWN_METHOD
signalProcess cat TERM => fault 1 UNKNOWN_METHOD
signalProcessGroup cat TERM => fault 1 UNKNOWN_METHOD
startAllProcesses => fault 1 UNKNOWN_METHOD
startProcess web:a => fault 1 UNKNOWN_METHOD
startProcessGroup web false => fault 1 UNKNOWN_METHOD
stopAllProcesses => fault 1 UNKNOWN_METHOD
stopProcess cat => fault 1 UNKNOWN_METHOD
stopProcessGroup cat => fault 1 UNKNOWN_METHOD
tailProcessStderrLog web:a 0 0 => fault 1 UNKNOWN_METHOD
tailProcessStdoutLog cat 0 0 => fault 1 UNKNOWN_METHOD
getState => fault 1 UNKNOWN_METHOD
getState 1 => fault 1 UNKNOWN_METHOD
nope => fault 1 UNKNOWN_METHOD
system.methodHelp x => fault 1 UNKNOWN_METHOD
system.listMethods x => fault 2 INCORRECT_PARAMETERS
system.methodSignature supervisor.getState => ['struct']
system.methodSignature nope => fault 4 SIGNATURE_UNSUPPORTED";

/// Signatures: the type of the answer, then those of the parameters.
const SIGNATURES: &str = "system.methodSignature supervisor.clearAllProcessLogs => ['array']
system.methodSignature supervisor.clearLog => ['boolean']
system.methodSignature supervisor.clearProcessLogs => ['boolean', 'string']
system.methodSignature supervisor.getAPIVersion => ['string']
system.methodSignature supervisor.getAllProcessInfo => ['array']
system.methodSignature supervisor.getIdentification => ['string']
system.methodSignature supervisor.getPID => ['int']
system.methodSignature supervisor.getProcessInfo => ['struct', 'string']
system.methodSignature supervisor.getState => ['struct']
system.methodSignature supervisor.getSupervisorVersion => ['string']
system.methodSignature supervisor.readLog => ['string', 'int', 'int']
system.methodSignature supervisor.readProcessStderrLog => ['string', 'string', 'int', 'int']
system.methodSignature supervisor.readProcessStdoutLog => ['string', 'string', 'int', 'int']
system.methodSignature supervisor.sendProcessStdin => ['boolean', 'string', 'string']
system.methodSignature supervisor.sendRemoteCommEvent => ['boolean', 'string', 'string']
system.methodSignature supervisor.shutdown => ['boolean']
system.methodSignature supervisor.signalAllProcesses => ['array', 'string']
system.methodSignature supervisor.signalProcess => ['boolean', 'string', 'string']
system.methodSignature supervisor.signalProcessGroup => ['array', 'string', 'string']
system.methodSignature supervisor.startAllProcesses => ['array', 'boolean']
system.methodSignature supervisor.startProcess => ['boolean', 'string', 'boolean']
system.methodSignature supervisor.startProcessGroup => ['array', 'string', 'boolean']
system.methodSignature supervisor.stopAllProcesses => ['array', 'boolean']
system.methodSignature supervisor.stopProcess => ['boolean', 'string', 'boolean']
system.methodSignature supervisor.stopProcessGroup => ['array', 'string', 'boolean']
system.methodSignature supervisor.tailProcessStderrLog => ['array', 'string', 'int', 'int']
system.methodSignature supervisor.tailProcessStdoutLog => ['array', 'string', 'int', 'int']
system.methodSignature system.listMethods => ['array']
system.methodSignature system.methodSignature => ['array', 'string']
system.methodSignature system.multicall => ['array', 'array']
system.methodSignature nope => fault 4 SIGNATURE_UNSUPPORTED
system.methodSignature getState => fault 4 SIGNATURE_UNSUPPORTED
system.methodSignature supervisor. => fault 4 SIGNATURE_UNSUPPORTED
system.methodSignature ' => fault 4 SIGNATURE_UNSUPPORTED";

/// All methods by their bytes.
const LIST: &str =
    "system.listMethods => ['supervisor.clearAllProcessLogs', 'supervisor.clearLog', 'supervisor.clearProcessLogs', 'supervisor.getAPIVersion', 'supervisor.getAllProcessInfo', 'supervisor.getIdentification', 'supervisor.getPID', 'supervisor.getProcessInfo', 'supervisor.getState', 'supervisor.getSupervisorVersion', 'supervisor.readLog', 'supervisor.readProcessStderrLog', 'supervisor.readProcessStdoutLog', 'supervisor.sendProcessStdin', 'supervisor.sendRemoteCommEvent', 'supervisor.shutdown', 'supervisor.signalAllProcesses', 'supervisor.signalProcess', 'supervisor.signalProcessGroup', 'supervisor.startAllProcesses', 'supervisor.startProcess', 'supervisor.startProcessGroup', 'supervisor.stopAllProcesses', 'supervisor.stopProcess', 'supervisor.stopProcessGroup', 'supervisor.tailProcessStderrLog', 'supervisor.tailProcessStdoutLog', 'system.listMethods', 'system.methodSignature', 'system.multicall']";

#[test]
fn refuses_parameters_and_methods_and_has_signatures(rt: HostRuntime) {
    let alloc = rt.alloc();
    come_out_over(&rt, alloc, BUSY, BAD_PARAMS);
    come_out_over(&rt, alloc, BUSY, NO_METHODS);
    come_out_over(&rt, alloc, BUSY, SIGNATURES);
    come_out_over(&rt, alloc, BUSY, LIST);
}

/// What the mood is during a shutdown, and during a restart.
const SHUT_MOOD: &str = "getState => {statecode -1, statename 'SHUTDOWN'}";

const RESTARTING_MOOD: &str = "getState => {statecode 0, statename 'RESTARTING'}";

/// Nearly all calls are refused in this mood, which is told so.
fn refuses_in(rt: &impl Abort, alloc: Global, mood: Mood, told: &str) {
    let scene = scene_with(rt, alloc, BUSY, mood, true, true);
    all_come_out(rt, alloc, &scene, SHUT);
    all_come_out(rt, alloc, &scene, LIST);
    all_come_out(rt, alloc, &scene, told);
}

#[test]
fn refuses_during_a_shutdown_and_a_restart(rt: HostRuntime) {
    refuses_in(&rt, rt.alloc(), Mood::Shutdown, SHUT_MOOD);
    refuses_in(&rt, rt.alloc(), Mood::Restarting, RESTARTING_MOOD);
}

#[test]
fn has_only_general_methods(rt: HostRuntime) {
    let scene = scene_with(&rt, rt.alloc(), BUSY, Mood::Running, true, false);
    all_come_out(&rt, rt.alloc(), &scene, WITHOUT_RPC);
    all_come_out(&rt, rt.alloc(), &scene, LIST);
}

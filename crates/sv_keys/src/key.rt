//! The keys of a configuration's sections.

ghost use Rattle.std.specs.Prelude.{◌≡◌};
ghost use Rattle.sv_keys.specs.KeyNames.{key_name, key_place};

/// A key of a section, in the order in which keys are looked at.
#[derive(Clone, Copy)]
pub enum Key {
    Command,
    ProcessName,
    Numprocs,
    NumprocsStart,
    Priority,
    Autostart,
    Startsecs,
    Startretries,
    Stopwaitsecs,
    Autorestart,
    Exitcodes,
    Stopsignal,
    Stopasgroup,
    Killasgroup,
    RedirectStderr,
    StdoutLogfile,
    StderrLogfile,
    StdoutLogfileMaxbytes,
    StderrLogfileMaxbytes,
    StdoutLogfileBackups,
    StderrLogfileBackups,
    StdoutCaptureMaxbytes,
    StderrCaptureMaxbytes,
    StdoutEventsEnabled,
    StderrEventsEnabled,
    Environment,
    Directory,
    Umask,
    User,
    Serverurl,
    Events,
    BufferSize,
    Programs,
    Logfile,
    LogfileMaxbytes,
    LogfileBackups,
    Loglevel,
    Identifier,
    Childlogdir,
    File,
    Port,
    Username,
    Password,
    Files,
}

impl Key {
    /// The key as a configuration writes it.
    #[tactic(auto, unfolding(crate::specs::KeyNames::key_name))]
    pub fn name(self) -> &'static str
        ensures { result.now ≡ key_name self }
    {
        match self {
            Key::Command => "command",
            Key::ProcessName => "process_name",
            Key::Numprocs => "numprocs",
            Key::NumprocsStart => "numprocs_start",
            Key::Priority => "priority",
            Key::Autostart => "autostart",
            Key::Startsecs => "startsecs",
            Key::Startretries => "startretries",
            Key::Stopwaitsecs => "stopwaitsecs",
            Key::Autorestart => "autorestart",
            Key::Exitcodes => "exitcodes",
            Key::Stopsignal => "stopsignal",
            Key::Stopasgroup => "stopasgroup",
            Key::Killasgroup => "killasgroup",
            Key::RedirectStderr => "redirect_stderr",
            Key::StdoutLogfile => "stdout_logfile",
            Key::StderrLogfile => "stderr_logfile",
            Key::StdoutLogfileMaxbytes => "stdout_logfile_maxbytes",
            Key::StderrLogfileMaxbytes => "stderr_logfile_maxbytes",
            Key::StdoutLogfileBackups => "stdout_logfile_backups",
            Key::StderrLogfileBackups => "stderr_logfile_backups",
            Key::StdoutCaptureMaxbytes => "stdout_capture_maxbytes",
            Key::StderrCaptureMaxbytes => "stderr_capture_maxbytes",
            Key::StdoutEventsEnabled => "stdout_events_enabled",
            Key::StderrEventsEnabled => "stderr_events_enabled",
            Key::Environment => "environment",
            Key::Directory => "directory",
            Key::Umask => "umask",
            Key::User => "user",
            Key::Serverurl => "serverurl",
            Key::Events => "events",
            Key::BufferSize => "buffer_size",
            Key::Programs => "programs",
            Key::Logfile => "logfile",
            Key::LogfileMaxbytes => "logfile_maxbytes",
            Key::LogfileBackups => "logfile_backups",
            Key::Loglevel => "loglevel",
            Key::Identifier => "identifier",
            Key::Childlogdir => "childlogdir",
            Key::File => "file",
            Key::Port => "port",
            Key::Username => "username",
            Key::Password => "password",
            Key::Files => "files",
        }
    }

    /// The place of the key among all keys.
    #[tactic(auto, unfolding(crate::specs::KeyNames::key_place))]
    pub(crate) fn place(self) -> u32
        ensures { result ≡ key_place self }
    {
        self as u32
    }
}
